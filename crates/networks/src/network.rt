// What a network tells.
ghost use Rattle.std.specs.Prelude.{◌≡◌, ℕ, ◌≤◌, pos, unsigned_abs};
ghost use Rattle.quantities.specs.Limits.{most_buses};
ghost use Rattle.networks.specs.Limits.{most_constraints, most_factor, most_price};
ghost use Rattle.networks.specs.Meaning.{Meaning, SpreadMost};

use quantities::{Factor, ShadowPrice};

pub const MAX_CONSTRAINTS: u8 = 8;

// Of a shadow price, above nought or below, in cents for a megawatt-hour.
pub const MAX_SHADOW_PRICE: u32 = 500_000;

// Of a factor, above nought or below, in thousandths.
pub const MAX_FACTOR: u16 = 2_000;

// How far apart two factors of one constraint lie at most.
pub const MAX_SPREAD: u16 = 2_000;

// A network answers four questions with what it means, and with nought beyond its counts. The laws are its limits.
pub trait Network {
    ghost meaning: { Self → Meaning };

    fn buses(&self) -> u16
        ensures { result ≡ (meaning self.now).buses };

    fn constraints(&self) -> u8
        ensures { result ≡ (meaning self.now).constraints };

    fn shadow_price(&self, constraint: u8) -> ShadowPrice
        ensures { result.0 ≡ (meaning self.now).price constraint };

    fn factor(&self, constraint: u8, bus: u16) -> Factor
        ensures { result.0 ≡ (meaning self.now).factor constraint bus };

    ghost a_bus: { (n : Self) → 1 ≤ (meaning n).buses };

    ghost buses_most: { (n : Self) → (meaning n).buses ≤ most_buses };

    ghost constraints_most: { (n : Self) → (meaning n).constraints ≤ most_constraints };

    ghost price_most: { (n : Self) (j : ℕ) → unsigned_abs ((meaning n).price j) ≤ most_price };

    ghost factor_most: { (n : Self) (j i : ℕ) → unsigned_abs ((meaning n).factor j i) ≤ most_factor };

    ghost spread_most: { (n : Self) → SpreadMost (meaning n) };

    ghost price_beyond: { (n : Self) (j : ℕ) → (meaning n).constraints ≤ j → (meaning n).price j ≡ pos 0 };

    ghost factor_beyond_constraints: { (n : Self) (j i : ℕ) → (meaning n).constraints ≤ j → (meaning n).factor j i ≡ pos 0 };

    ghost factor_beyond_buses: { (n : Self) (j i : ℕ) → (meaning n).buses ≤ i → (meaning n).factor j i ≡ pos 0 };
}
