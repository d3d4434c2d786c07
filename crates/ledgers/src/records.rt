// The ledger: records of one kind of position in a slice that the caller lends.
ghost use Rattle.std.specs.Prelude.{◌≡◌, ◌-◌, ◌≤◌, ◌↔◌, IsTrue, length, take, drop};

use positions::Position;
use refusals::Cause;

// The records that stand are the first `len` of the slice. Those before `mark` are of a closed phase.
// The caller lends the memory, so a count beside the slice stands in for a Vec.
#[derive(Drop)]
pub struct Ledger<'a, P> {
    records: &'a mut [P],
    len: usize,
    mark: usize,
    ghost fits: { len ≤ length records.now },
    ghost marked: { mark ≤ len },
}

// A ledger that no call changes any more. What stands before `mark` is of the day-ahead phase. The slice is not cut to what stands,
// since its length is the room that the ledger had.
#[derive(Drop)]
pub struct ClosedLedger<'a, P> {
    records: &'a [P],
    len: usize,
    mark: usize,
    ghost fits: { len ≤ length records.now },
    ghost marked: { mark ≤ len },
}

impl<'a, P: Position> Ledger<'a, P> {
    ghost use Rattle.ledgers.specs.Book.{Amended, OpenAt, Appended, IsOpen, SameSlice, book, closed, closed_book, empty};

    // An empty ledger, with room for as many records as the slice has.
    pub fn new(records: &'a mut [P]) -> Ledger<'a, P>
        ensures book { book result ≡ empty P (length records.old) }
        ensures slice { result.records.ghost_name ≡ records.entry.ghost_name }
        ensures place { result.records.ref_ptr ≡ records.entry.ref_ptr }
    {
        Ledger {
            records,
            len: 0,
            mark: 0,
        }
    }

    // How many records stand.
    pub fn count(&self) -> usize
        ensures { result ≡ length (book self.now).items }
    {
        self.standing().len()
    }

    // How many records more there may be.
    pub fn room(&self) -> usize
        ensures { result ≡ (book self.now).capacity - length (book self.now).items }
    {
        self.records.len() - self.len
    }

    // Adds a record, and answers its number.
    pub fn post(&mut self, record: P) -> Result<usize, Cause>
        ensures posted { Appended (book self.old) «record» result (book self.new) }
        ensures slice { SameSlice self.old self.new }
    {
        if self.len == self.records.len() {
            return Err(Cause::LedgerFull);
        }
        let number = self.len;
        self.records[number] = record;
        self.len += 1;
        Ok(number)
    }

    // Replaces the M of one record of the open phase.
    pub fn amend(&mut self, number: usize, tenths: u32) -> Result<(), Cause>
        ensures amended { Amended P.Position.amended (book self.old) number tenths result (book self.new) }
        ensures slice { SameSlice self.old self.new }
    {
        if !self.is_open(number) {
            return Err(Cause::RecordNotOpen);
        }
        // Reborrowed first: an element is not yet lent through a struct that has a ghost field.
        let records = &mut *self.records;
        let record = &mut records[number];
        *record = record.with_tenths(tenths);
        Ok(())
    }

    // All records, in the order in which they were posted.
    fn standing(&self) -> &[P]
        ensures { result.now ≡ (book self.now).items }
    {
        &self.records[..self.len]
    }

    // Whether the record of that number is one of the open phase.
    fn is_open(&self, number: usize) -> bool
        ensures { IsTrue result ↔ (IsOpen (book self.now) number) }
    {
        (self.mark..self.len).contains(&number)
    }

    // The record of that number, if it is one of the open phase.
    pub fn open_at(&self, number: usize) -> Option<P>
        ensures { OpenAt (book self.now) number result }
    {
        self.is_open(number).then(|| self.records[number])
    }

    // All that stands is now of a closed phase.
    pub fn close_phase(mut self) -> Ledger<'a, P>
        ensures book { book result ≡ closed (book self.entry) }
        ensures slice { result.records.ghost_name ≡ self.entry.records.ghost_name }
        ensures place { result.records.ref_ptr ≡ self.entry.records.ref_ptr }
    {
        self.mark = self.len;
        self
    }

    // The records for as long as the caller lent them, with nobody left to change them.
    pub fn finish(self) -> ClosedLedger<'a, P>
        ensures book { closed_book result ≡ book self.entry }
        ensures place { result.records.ref_ptr ≡ self.entry.records.ref_ptr }
    {
        let Ledger { records, len, mark } = self;
        ClosedLedger { records, len, mark }
    }
}

impl<'a, P: Position> ClosedLedger<'a, P> {
    ghost use Rattle.ledgers.specs.Book.{closed_book};

    // All records, in the order in which they were posted.
    pub fn standing(&self) -> &'a [P]
        ensures records { result.now ≡ (closed_book self.now).items }
        ensures place { result.ref_ptr ≡ self.now.records.ref_ptr }
    {
        &self.records[0..self.len]
    }

    // The records of the day-ahead phase: the front part of the slice itself.
    pub fn day_ahead(&self) -> &'a [P]
        ensures records { result.now ≡ take (closed_book self.now).mark (closed_book self.now).items }
        ensures place { result.ref_ptr ≡ self.now.records.ref_ptr }
    {
        &self.standing()[..self.mark]
    }

    // The records of real time: what is behind the day-ahead part.
    pub fn real_time(&self) -> &'a [P]
        ensures { result.now ≡ drop (closed_book self.now).mark (closed_book self.now).items }
    {
        &self.standing()[self.mark..]
    }
}
