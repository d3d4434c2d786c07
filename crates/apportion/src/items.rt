// What an amount is split over.
ghost use Rattle.std.specs.Prelude.{◌≡◌, ℕ};

// An item names its bus and its weight.
pub trait WeightedItem {
    ghost stands: { Self → ℕ };

    ghost weighs: { Self → ℕ };

    fn bus(&self) -> u16
        ensures { result ≡ stands self.now };

    fn weight(&self) -> u64
        ensures { result ≡ weighs self.now };
}

// A bus, with its weight in the allocation of a constraint's congestion.
#[derive(Clone, Copy, PartialEq, Eq, Debug)]
pub struct LoadBus {
    pub bus: u16,
    pub weight: u64,
}

// A bus of an area, with its share of the area's load in hundredths of a percent.
#[derive(Clone, Copy, PartialEq, Eq, Debug)]
pub struct AreaMember {
    pub bus: u16,
    pub share: u16,
}

impl WeightedItem for LoadBus {
    ghost stands = { λ x. x.bus };

    ghost weighs = { λ x. x.weight };

    fn bus(&self) -> u16 {
        self.bus
    }

    fn weight(&self) -> u64 {
        self.weight
    }
}

impl WeightedItem for AreaMember {
    ghost stands = { λ x. x.bus };

    ghost weighs = { λ x. x.share };

    fn bus(&self) -> u16 {
        self.bus
    }

    fn weight(&self) -> u64 {
        u64::from(self.share)
    }
}
