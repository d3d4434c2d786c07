// The layers that refuse.
ghost use Rattle.std.specs.Prelude.{◌≡◌};
ghost use Rattle.refusals.specs.Causes.{layer_number};

// The part of the program that refuses, with its number in a refusal line.
#[derive(Clone, Copy, PartialEq, Eq, Debug)]
pub enum Layer {
    Reader = 1,
    Hour = 2,
    Network = 3,
}

impl Layer {
    // The number of the layer in a refusal line. A method, as of a cause.
    pub fn number(self) -> u8
        ensures { result ≡ layer_number self }
    {
        self as u8
    }
}
