// Posting to the open phase.
ghost use Rattle.hours.specs.Hours.{register_of};
ghost use Rattle.register.specs.Register.{Step};
ghost use Rattle.register.specs.Weighed.{BusWeighed, ParticipantWeighed};
ghost use Rattle.register.specs.Views.{numbered, posting as post_of, spreading, transferring};

use super::Hour;
use apportion::AreaMember;
use areas::{post_area, weigh_members};
use positions::{BusPosition, Position, Side, Transaction};
use refusals::Cause;
use register::{OpenPhase, class_taken};

// The calls take what a line of an hour names, one by one. As one value, a call is a `Call` of call_lists.

// The largest number of a participant.
pub const LAST_PARTICIPANT: u8 = 15;

impl<'a, P: OpenPhase> Hour<'a, P> {
    // Posts a bus position, and answers the number of its record. The class is a number, since a wrong one is answered too.
    pub fn post(
        &mut self,
        participant: u8,
        class: u8,
        bus: u16,
        tenths: u32,
    ) -> Result<usize, Cause>
        ensures { Step (register_of self.old) (post_of participant class bus tenths)
            (numbered result) (register_of self.new) }
    {
        self.weigh_bus(bus)?;
        weigh_participant(participant)?;
        let class = class_taken::<P>(class)?;
        let totals = self.totals.amended(class.side(), 0, tenths)?;
        let number = self
            .positions
            .post(BusPosition::new(participant, class, bus, tenths))?;
        self.totals = totals;
        Ok(number)
    }

    // Posts a transaction, and answers the number of its record.
    pub fn post_transaction(
        &mut self,
        participant: u8,
        source: u16,
        sink: u16,
        tenths: u32,
    ) -> Result<usize, Cause>
        ensures { Step (register_of self.old) (transferring participant source sink tenths)
            (numbered result) (register_of self.new) }
    {
        self.weigh_bus(source)?;
        self.weigh_bus(sink)?;
        weigh_participant(participant)?;
        let totals = self.totals.amended(Side::Transacting, 0, tenths)?;
        if source == sink {
            return Err(Cause::SourceIsSink);
        }
        let number = self
            .transactions
            .post(Transaction::new(participant, source, sink, tenths))?;
        self.totals = totals;
        Ok(number)
    }

    // Spreads an M over the members of an area by their shares, one load record for each, and answers the number of the first.
    pub fn post_area(
        &mut self,
        participant: u8,
        tenths: u32,
        members: &[AreaMember],
    ) -> Result<usize, Cause>
        ensures { Step (register_of self.old) (spreading participant tenths members.now)
            (numbered result) (register_of self.new) }
    {
        weigh_members(members, self.buses)?;
        weigh_participant(participant)?;
        let totals = self.totals.amended(Side::Withdrawing, 0, tenths)?;
        let first = post_area(&mut self.positions, participant, tenths, members)?;
        self.totals = totals;
        Ok(first)
    }

    // Whether a bus is one of the hour's.
    fn weigh_bus(&self, bus: u16) -> Result<(), Cause>
        ensures { BusWeighed self.now.buses bus result }
    {
        if bus >= self.buses {
            return Err(Cause::BusOutOfRange);
        }
        Ok(())
    }
}

// Whether there is a participant of this number.
fn weigh_participant(participant: u8) -> Result<(), Cause>
    ensures { ParticipantWeighed participant result }
{
    if participant > LAST_PARTICIPANT {
        return Err(Cause::ParticipantOutOfRange);
    }
    Ok(())
}
