// A radial network at the edge of each limit, and what a chain tells.
use crate::{REFUSED, TAKEN};
use networks::{Network, Radial, RadialConstraint};
use quantities::{Factor, ShadowPrice};
use std::test::Fail;

// Each of the buses 1 to 31 hangs from the one before it.
const CHAIN: [u16; 31] = [
    0, 1, 2, 3, 4, 5, 6, 7, 8, 9, 10, 11, 12, 13, 14, 15, 16, 17, 18, 19, 20, 21, 22, 23, 24, 25,
    26, 27, 28, 29, 30,
];

fn constraint(bus: u16, price: i32) -> RadialConstraint {
    RadialConstraint {
        bus,
        price: ShadowPrice(price),
    }
}

#[test]
fn buses_are_1_to_32(rt: HostRuntime) {
    assert_eq!(rt; Radial::weigh(&[], &[]), TAKEN);
    assert_eq!(rt; Radial::weigh(&[0; 31], &[]), TAKEN);
    assert_eq!(rt; Radial::weigh(&[0; 32], &[]), REFUSED);
}

#[test]
fn an_upper_bus_has_a_smaller_number(rt: HostRuntime) {
    assert_eq!(rt; Radial::weigh(&[0, 1], &[]), TAKEN);
    assert_eq!(rt; Radial::weigh(&[1, 1], &[]), REFUSED);
    assert_eq!(rt; Radial::weigh(&[0, 2], &[]), REFUSED);
}

#[test]
fn constraints_are_at_most_8(rt: HostRuntime) {
    assert_eq!(rt; Radial::weigh(&[0], &[constraint(1, 0); 8]), TAKEN);
    assert_eq!(rt; Radial::weigh(&[0], &[constraint(1, 0); 9]), REFUSED);
}

#[test]
fn a_constraint_is_at_a_bus_below_the_root(rt: HostRuntime) {
    assert_eq!(rt; Radial::weigh(&[0, 0], &[constraint(0, 0)]), REFUSED);
    assert_eq!(rt; Radial::weigh(&[0, 0], &[constraint(2, 0)]), TAKEN);
    assert_eq!(rt; Radial::weigh(&[0, 0], &[constraint(3, 0)]), REFUSED);
}

#[test]
fn prices_are_within_500_000(rt: HostRuntime) {
    assert_eq!(rt;
        Radial::weigh(&[0], &[constraint(1, 500_000), constraint(1, -500_000)]),
        TAKEN
    );
    assert_eq!(rt;
        Radial::weigh(&[0], &[constraint(1, 0), constraint(1, 500_001)]),
        REFUSED
    );
    assert_eq!(rt;
        Radial::weigh(&[0], &[constraint(1, -500_001), constraint(1, 0)]),
        REFUSED
    );
}

#[test]
fn a_chain_of_32_buses_hangs_from_its_constraint(rt: HostRuntime) -> Result<(), Fail> {
    let uppers = CHAIN.to_vec(rt.alloc())?;
    let constraints = [constraint(2, 9)].to_vec(rt.alloc())?;
    Radial::weigh(uppers.as_slice(), constraints.as_slice())?;
    let chain = Radial::new(uppers, constraints);
    assert_eq!(rt; chain.buses(), 32);
    assert_eq!(rt; chain.constraints(), 1);
    assert_eq!(rt; chain.shadow_price(0).0, 9);
    assert_eq!(rt; chain.shadow_price(1).0, 0);
    assert_eq!(rt; chain.factor(0, 1).0, 0);
    assert_eq!(rt; chain.factor(0, 2).0, -1_000);
    assert_eq!(rt; chain.factor(0, 31).0, -1_000);
    assert_eq!(rt; chain.factor(0, 32).0, 0);
    assert_eq!(rt; chain.factor(1, 2).0, 0);
    Ok(())
}
