// The hour in its three states.
ghost use Rattle.ledgers.specs.Book.{book, closed_book};
ghost use Rattle.register.specs.Sound.{Sound};
ghost use Rattle.register.specs.Views.{Marked, Sized, Summed, phase_of, register};

mod amending;
mod closing;
mod making;
mod posting;
mod reading;

pub use self::making::weigh_making;
use ledgers::{ClosedLedger, Ledger};
use positions::{BusPosition, Transaction};
use register::{DayAheadPhase, OpenPhase, RealTimePhase, Totals};
use std::marker::PhantomData;

pub type DayAhead<'a> = Hour<'a, DayAheadPhase>;

pub type RealTime<'a> = Hour<'a, RealTimePhase>;

// An hour with the phase P open.
#[derive(Drop)]
pub struct Hour<'a, P: OpenPhase> {
    buses: u16,
    positions: Ledger<'a, BusPosition>,
    transactions: Ledger<'a, Transaction>,
    totals: Totals,
    phase: PhantomData<P>,
    ghost marked: { Marked P.closings (book positions) × Marked P.closings (book transactions) },
    ghost summed: { Summed totals (register P.closings buses (book positions) (book transactions))
        (phase_of P.closings) },
    ghost sized: { Sized (book positions) × Sized (book transactions) },
    ghost sound: { Sound (register P.closings buses (book positions) (book transactions)) },
}

// Records of both ledgers: parts of the slices that the caller lent.
#[derive(Clone, Copy)]
pub struct Records<'a> {
    pub positions: &'a [BusPosition],
    pub transactions: &'a [Transaction],
}

// An hour that no call changes any more.
#[derive(Drop)]
pub struct ClosedHour<'a> {
    buses: u16,
    positions: ClosedLedger<'a, BusPosition>,
    transactions: ClosedLedger<'a, Transaction>,
    ghost sound: { Sound (register 2 buses (closed_book positions) (closed_book transactions)) },
}
