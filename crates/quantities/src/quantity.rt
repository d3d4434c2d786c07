// A whole number of one unit, in 64 bits.
ghost use Rattle.std.specs.Prelude.{◌≡◌, ℤ, ◌+ℤ◌, ◌-ℤ◌};
ghost use Rattle.quantities.specs.Exact.{Exact};

// Each unit is a type of its own, so that two units cannot be added. What is added or taken away here is of one unit. A number
// becomes a quantity by `from_units`, and a quantity a number by `units`: with `From`, an `into` would hide which unit is meant.
pub trait Quantity: Copy {
    ghost units: { Self → ℤ };

    fn units(self) -> i64
        ensures { result ≡ units self };

    fn from_units(count: i64) -> Self
        ensures { units result ≡ count };

    // The sum, or None where it does not fit 64 bits. By `?`, since the borrow checker does not
    // cover a `map` with a function whose result is `Self`.
    fn checked_add(self, other: Self) -> Option<Self>
        ensures { Exact units result (units self +ℤ units other) }
    {
        let sum = self.units().checked_add(other.units())?;
        Some(Self::from_units(sum))
    }

    // The difference, or None where it does not fit 64 bits.
    fn checked_sub(self, other: Self) -> Option<Self>
        ensures { Exact units result (units self -ℤ units other) }
    {
        let difference = self.units().checked_sub(other.units())?;
        Some(Self::from_units(difference))
    }

    // a quantity is its number of units, and nothing besides
    ghost alone: { (x y : Self) → units x ≡ units y → x ≡ y };
}
