// Short lists of calls at the edges of each limit, and what each answers.
#![tactic(auto)]

#[cfg(test)]
mod tests {
    use apportion::AreaMember;
    use call_lists::{Call, replay};
    use hours::{DayAhead, Hour, weigh_making};
    use positions::{BusPosition, Class, Transaction};
    use refusals::Cause;
    use register::Accepted;
    use std::test::Fail;

    fn load(tenths: u32) -> Call<'static> {
        Call::Post {
            participant: 0,
            class: 1,
            bus: 0,
            tenths,
        }
    }

    fn amend(record: usize, tenths: u32) -> Call<'static> {
        Call::AmendPosition { record, tenths }
    }

    fn none() -> BusPosition {
        BusPosition::new(0, Class::Load, 0, 0)
    }

    #[test]
    fn total_up_to_the_limit(rt: HostRuntime) {
        let mut positions = [none(); 3];
        let mut transactions = [Transaction::new(0, 0, 0, 0); 0];
        let mut answers = [Ok(Accepted::Taken); 4];
        let calls = [load(999_999), load(2), load(1), Call::Close];
        let end = replay(1, &mut positions, &mut transactions, &calls, &mut answers);
        assert_eq!(rt; end, Ok(None));
        assert_eq!(rt; answers[0], Ok(Accepted::RecordNumber(0)));
        assert_eq!(rt; answers[1], Err(Cause::TotalOverLimit));
        assert_eq!(rt; answers[2], Ok(Accepted::RecordNumber(1)));
        assert_eq!(rt; answers[3], Err(Cause::Unbalanced));
    }

    // The second closing ends the list, and what stands behind it is not answered.
    #[test]
    fn no_records(rt: HostRuntime) {
        let mut positions = [none(); 0];
        let mut transactions = [Transaction::new(0, 0, 0, 0); 0];
        let mut answers = [Err(Cause::RowLength); 4];
        let calls = [load(0), Call::Close, Call::Close, load(0)];
        let end = replay(1, &mut positions, &mut transactions, &calls, &mut answers);
        assert_eq!(rt; end, Ok(Some(3)));
        assert_eq!(rt; answers[0], Err(Cause::LedgerFull));
        assert_eq!(rt; answers[1], Ok(Accepted::Taken));
        assert_eq!(rt; answers[2], Ok(Accepted::Taken));
        assert_eq!(rt; answers[3], Err(Cause::RowLength));
    }

    #[test]
    fn full_ledger_stands(rt: HostRuntime) {
        let mut positions = [none(); 1];
        let mut transactions = [Transaction::new(0, 0, 0, 0); 0];
        let mut answers = [Ok(Accepted::Taken); 4];
        let calls = [load(5), load(6), amend(1, 0), amend(0, 1_000_000)];
        let end = replay(1, &mut positions, &mut transactions, &calls, &mut answers);
        assert_eq!(rt; end, Ok(None));
        assert_eq!(rt; answers[1], Err(Cause::LedgerFull));
        assert_eq!(rt; answers[2], Err(Cause::RecordNotOpen));
        assert_eq!(rt; answers[3], Ok(Accepted::Taken));
    }

    #[test]
    fn most_records(rt: HostRuntime) {
        let mut positions = [none(); 4_096];
        let mut transactions = [Transaction::new(0, 0, 0, 0); 0];
        let mut answers = [Ok(Accepted::Taken); 4_097];
        let calls = [load(0); 4_097];
        let end = replay(1, &mut positions, &mut transactions, &calls, &mut answers);
        assert_eq!(rt; end, Ok(None));
        assert_eq!(rt; answers[4_095], Ok(Accepted::RecordNumber(4_095)));
        assert_eq!(rt; answers[4_096], Err(Cause::LedgerFull));
    }

    #[test]
    fn too_many_records(rt: HostRuntime) {
        let positions = [none(); 4_097];
        assert_eq!(rt; weigh_making(1, &positions, &[]), Err(Cause::OutsideLimits));
        assert_eq!(rt; weigh_making(33, &[], &[]), Err(Cause::OutsideLimits));
        assert_eq!(rt; weigh_making(32, &[], &[]), Ok(()));
    }

    fn area(hour: &mut DayAhead) -> Result<(), Cause> {
        let members = [
            AreaMember {
                bus: 0,
                share: 3_333,
            },
            AreaMember {
                bus: 1,
                share: 3_333,
            },
            AreaMember {
                bus: 2,
                share: 3_334,
            },
        ];
        hour.post_area(0, 10, &members)?;
        hour.post(1, 3, 0, 10)?;
        hour.weigh_closing()
    }

    // Ten tenths over three members, met by generation; real time stays empty.
    #[test]
    fn area_in_order(rt: HostRuntime) -> Result<(), Fail> {
        let mut positions = [none(); 4];
        let mut transactions = [Transaction::new(0, 0, 0, 0); 0];
        weigh_making(3, &positions, &transactions)?;
        let mut hour = Hour::new(3, &mut positions, &mut transactions);
        assert_eq!(rt; area(&mut hour), Ok(()));
        hour.weigh_closing()?;
        let hour = hour.close();
        hour.weigh_closing()?;
        let hour = hour.close();
        let day = hour.day_ahead().positions;
        assert_eq!(rt; day.len(), 4);
        assert_eq!(rt; day[0].megawatts.0, 3);
        assert_eq!(rt; day[1].megawatts.0, 3);
        assert_eq!(rt; day[2].megawatts.0, 4);
        assert_eq!(rt; hour.real_time().positions.len(), 0);
        Ok(())
    }
}
