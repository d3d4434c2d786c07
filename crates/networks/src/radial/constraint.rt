// A constraint of a radial network: the line from a bus to its upper bus.
use quantities::ShadowPrice;

#[derive(Clone, Copy, PartialEq, Eq, Debug)]
pub struct RadialConstraint {
    pub bus: u16,
    pub price: ShadowPrice,
}
