// What every position means: whose it is, its M, and what it withdraws and loads at each bus.
ghost use Rattle.std.specs.Prelude.{◌≡◌, ℕ, ◌*◌, ◌≤◌};
ghost use Rattle.positions.specs.Classes.{one_if_side};
ghost use Rattle.positions.specs.Posted.{Posted, load_of, net_of};
ghost use Rattle.positions.specs.declared.classes.Side.TheVariants.{Withdrawing};
ghost use Rattle.positions.specs.declared.position.Ends.{Ends as Places};

use crate::classes::Side;

// Where a position withdraws and where it injects, with how much, in tenths of a megawatt. Its load is at the sink.
#[derive(Clone, Copy)]
pub struct Ends {
    pub sink: u16,
    pub withdrawn: u64,
    pub source: u16,
    pub injected: u64,
    pub load: u64,
}

// The ledger and settlement know of a position what it answers here, and nothing else.
pub trait Position: Copy {
    ghost meaning: { Self → Posted };

    // where it withdraws and injects: a reader of records needs no more than these two buses
    ghost ends: { Self → Places };

    // the same position with another M
    ghost amended: { Self → ℕ → Self };

    fn participant(&self) -> u8
        ensures { result ≡ (meaning self.now).participant };

    // Its M, in tenths of a megawatt.
    fn tenths(&self) -> u64
        ensures { result ≡ (meaning self.now).megawatts };

    // The total that it counts in.
    fn side(&self) -> Side
        ensures { result ≡ (meaning self.now).side };

    fn ends(&self) -> Ends
        ensures { result ≡ ends self.now };

    fn with_tenths(&self, tenths: u32) -> Self
        ensures { result ≡ amended self.now tenths };

    ghost net: { (x : Self) (i : ℕ) → (meaning x).withdraws i ≡ net_of (ends x) i };

    ghost load: { (x : Self) (i : ℕ) → (meaning x).load i ≡ load_of (ends x) i };

    ghost withdrawn_within: { (x : Self) → (ends x).withdrawn ≤ (meaning x).megawatts };

    ghost injected_within: { (x : Self) → (ends x).injected ≤ (meaning x).megawatts };

    ghost load_within: { (x : Self) → (ends x).load ≤ one_if_side (meaning x).side Withdrawing * (meaning x).megawatts };

    ghost participant_stays: { (x : Self) (m : ℕ) → (meaning (amended x m)).participant ≡ (meaning x).participant };

    ghost side_stays: { (x : Self) (m : ℕ) → (meaning (amended x m)).side ≡ (meaning x).side };

    ghost megawatts_amended: { (x : Self) (m : ℕ) → (meaning (amended x m)).megawatts ≡ m };
}
