// The load of an area, spread over its members by their shares.
#![tactic(auto)]

ghost use Rattle.std.specs.Prelude.{◌≡◌, ◌+◌, ◌≤◌, ◌++◌, length, pos, IfOk, MatchResult};
ghost use Rattle.apportion.specs.Split.{shares, whole};
ghost use Rattle.ledgers.specs.Book.{SameSlice, book, holding};
ghost use Rattle.ledgers.specs.Limits.{most_records};
ghost use Rattle.refusals.specs.Answers.{Answered};
ghost use Rattle.areas.specs.Areas.{AreaRefused, MembersWeighed, SharesWeighed, loads, shares_by};
ghost use Rattle.quantities.specs.Views.{megawatts};

use apportion::{AreaMember, split, weight_sum};
use ledgers::{Ledger, MAX_RECORDS};
use positions::{BusPosition, Class};
use quantities::Megawatts;
use refusals::Cause;

// The shares of a whole area, in hundredths of a percent.
const WHOLE: u64 = 10_000;

// Whether every member's bus is one of the hour's.
pub fn weigh_members(members: &[AreaMember], buses: u16) -> Result<(), Cause>
    ensures { MembersWeighed buses members.now result }
{
    if members.iter().all(|member| member.bus < buses) {
        Ok(())
    } else {
        Err(Cause::BusOutOfRange)
    }
}

// Posts one load for each member, with its part of M, and answers the number of the first. All are posted, or none.
pub fn post_area(
    ledger: &mut Ledger<BusPosition>,
    participant: u8,
    tenths: u32,
    members: &[AreaMember],
) -> Result<usize, Cause>
    ensures answer { Answered (AreaRefused (book ledger.old) members.now) result }
    ensures posted { MatchResult result
        (λ i. (i ≡ length (book ledger.old).items)
        × (book ledger.new ≡ holding (book ledger.old) ((book ledger.old).items
        ++ loads participant members.now (shares (pos tenths) (shares_by members.now)))))
        (λ _. book ledger.new ≡ book ledger.old) }
    ensures slice { SameSlice ledger.old ledger.new }
{
    if members.len() > MAX_RECORDS || members.len() > ledger.room() {
        return Err(Cause::LedgerFull);
    }
    let load = AreaLoad::new(participant, tenths, members)?;
    let first = ledger.count();
    load.post(ledger);
    Ok(first)
}

// An M of one participant, over the members of a whole area. That a ledger stays in its slice (`SameSlice`) is said by each call, since
// no type can hold a fact of two moments.
#[derive(Drop)]
struct AreaLoad<'a> {
    participant: u8,
    tenths: u32,
    members: &'a [AreaMember],
    ghost whole: { whole (shares_by members.now) ≡ 10000 },
    ghost few: { length members.now ≤ most_records },
}

impl<'a> AreaLoad<'a> {
    // The load, if the members' shares make up the whole. There are members then, too.
    fn new(participant: u8, tenths: u32, members: &'a [AreaMember]) -> Result<AreaLoad<'a>, Cause>
        requires { length members.now ≤ most_records }
        ensures weighed { SharesWeighed members.now result }
        ensures participant { IfOk result (λ load. load.participant ≡ participant) }
        ensures tenths { IfOk result (λ load. load.tenths ≡ tenths) }
        ensures members { IfOk result (λ load. load.members.now ≡ members.now) }
    {
        match weight_sum(members) {
            Ok(WHOLE) => Ok(AreaLoad {
                participant,
                tenths,
                members,
            }),
            _ => Err(Cause::AreaNotWhole),
        }
    }

    // Spreads the M over the members by their shares, one load record for each.
    fn post(&self, ledger: &mut Ledger<BusPosition>)
        requires { length (book ledger.old).items + length self.now.members.now
            ≤ (book ledger.old).capacity }
        ensures posted { book ledger.new ≡ holding (book ledger.old) ((book ledger.old).items
            ++ loads self.now.participant self.now.members.now
            (shares (pos self.now.tenths) (shares_by self.now.members.now))) }
        ensures slice { SameSlice ledger.old ledger.new }
    {
        // The one split there is fills a row, and an hour uses no heap: so the row is on the stack, long enough for the longest area.
        let mut row = [Megawatts(0); MAX_RECORDS];
        let parts = &mut row[..self.members.len()];
        self.share_out(parts);
        self.post_parts(ledger, parts);
    }

    // Splits the M over the members by their shares, one place of the row for each.
    fn share_out(&self, row: &mut [Megawatts])
        requires { length row.old ≡ length self.now.members.now }
        ensures { megawatts row.new ≡ shares (pos self.now.tenths) (shares_by self.now.members.now) }
    {
        split(Megawatts::withdrawal(self.tenths), self.members, row).unwrap();
    }

    // Posts one load for each member, with the megawatts of its place in the row.
    fn post_parts(&self, ledger: &mut Ledger<BusPosition>, row: &[Megawatts])
        requires { length (book ledger.old).items + length self.now.members.now
            ≤ (book ledger.old).capacity }
        ensures posted { book ledger.new ≡ holding (book ledger.old) ((book ledger.old).items
            ++ loads self.now.participant self.now.members.now (megawatts row.now)) }
        ensures slice { SameSlice ledger.old ledger.new }
    {
        for (member, megawatts) in self.members.iter().zip(row) {
            ledger
                .post(BusPosition {
                    participant: self.participant,
                    class: Class::Load,
                    bus: member.bus,
                    megawatts: *megawatts,
                })
                .unwrap();
        }
    }
}
