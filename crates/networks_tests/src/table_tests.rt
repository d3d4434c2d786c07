// A table at the edge of each limit, and what one tells.
use crate::{REFUSED, TAKEN};
use networks::{Network, Table, congestion_price};
use quantities::{Factor, ShadowPrice};
use std::test::Fail;

#[test]
fn buses_are_1_to_32(rt: HostRuntime) {
    assert_eq!(rt; Table::weigh(0, &[], &[]), REFUSED);
    assert_eq!(rt; Table::weigh(1, &[], &[]), TAKEN);
    assert_eq!(rt; Table::weigh(32, &[], &[]), TAKEN);
    assert_eq!(rt; Table::weigh(33, &[], &[]), REFUSED);
}

#[test]
fn constraints_are_at_most_8(rt: HostRuntime) {
    assert_eq!(rt;
        Table::weigh(1, &[ShadowPrice(0); 8], &[Factor(0); 8]),
        TAKEN
    );
    assert_eq!(rt;
        Table::weigh(1, &[ShadowPrice(0); 9], &[Factor(0); 9]),
        REFUSED
    );
}

#[test]
fn prices_are_within_500_000(rt: HostRuntime) {
    assert_eq!(rt;
        Table::weigh(
            1,
            &[ShadowPrice(500_000), ShadowPrice(-500_000)],
            &[Factor(0); 2],
        ),
        TAKEN
    );
    assert_eq!(rt;
        Table::weigh(1, &[ShadowPrice(0), ShadowPrice(500_001)], &[Factor(0); 2]),
        REFUSED
    );
    assert_eq!(rt;
        Table::weigh(1, &[ShadowPrice(-500_001), ShadowPrice(0)], &[Factor(0); 2]),
        REFUSED
    );
}

#[test]
fn factors_are_one_for_each_bus_and_constraint(rt: HostRuntime) {
    assert_eq!(rt;
        Table::weigh(2, &[ShadowPrice(0)], &[Factor(0); 1]),
        REFUSED
    );
    assert_eq!(rt; Table::weigh(2, &[ShadowPrice(0)], &[Factor(0); 2]), TAKEN);
    assert_eq!(rt;
        Table::weigh(2, &[ShadowPrice(0)], &[Factor(0); 3]),
        REFUSED
    );
}

#[test]
fn factors_are_within_2_000(rt: HostRuntime) {
    assert_eq!(rt;
        Table::weigh(1, &[ShadowPrice(0); 2], &[Factor(2_000), Factor(-2_000)]),
        TAKEN
    );
    assert_eq!(rt;
        Table::weigh(1, &[ShadowPrice(0); 2], &[Factor(0), Factor(2_001)]),
        REFUSED
    );
    assert_eq!(rt;
        Table::weigh(1, &[ShadowPrice(0); 2], &[Factor(-2_001), Factor(0)]),
        REFUSED
    );
}

#[test]
fn factors_of_one_constraint_are_within_2_000_of_each_other(rt: HostRuntime) {
    assert_eq!(rt;
        Table::weigh(2, &[ShadowPrice(0)], &[Factor(-1_000), Factor(1_000)]),
        TAKEN
    );
    assert_eq!(rt;
        Table::weigh(2, &[ShadowPrice(0)], &[Factor(-1_000), Factor(1_001)]),
        REFUSED
    );
    assert_eq!(rt;
        Table::weigh(
            2,
            &[ShadowPrice(0); 2],
            &[Factor(0), Factor(0), Factor(1_001), Factor(-1_000)],
        ),
        REFUSED
    );
}

#[test]
fn a_table_tells_what_was_given(rt: HostRuntime) -> Result<(), Fail> {
    let prices = [ShadowPrice(5), ShadowPrice(-7)].to_vec(rt.alloc())?;
    let factors = [
        Factor(1),
        Factor(2),
        Factor(3),
        Factor(4),
        Factor(5),
        Factor(6),
    ]
    .to_vec(rt.alloc())?;
    Table::weigh(3, prices.as_slice(), factors.as_slice())?;
    let table = Table::new(3, prices, factors);
    assert_eq!(rt; table.buses(), 3);
    assert_eq!(rt; table.constraints(), 2);
    assert_eq!(rt; table.shadow_price(1).0, -7);
    assert_eq!(rt; table.shadow_price(2).0, 0);
    assert_eq!(rt; table.factor(1, 2).0, 6);
    assert_eq!(rt; table.factor(0, 3).0, 0);
    assert_eq!(rt; table.factor(2, 0).0, 0);
    assert_eq!(rt; congestion_price(&table, 1).0, 5 * 2 - 7 * 5);
    Ok(())
}
