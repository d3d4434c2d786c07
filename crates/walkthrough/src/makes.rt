// A table and a radial network, each weighed, made and asked for its prices.
use crate::show;
use anyhow::bail;
use networks::{Network, Radial, RadialConstraint, Table, congestion_price};
use quantities::{Factor, ShadowPrice};
use std::io;

// Two buses and one constraint, its factors as given.
pub(crate) fn table(rt: &HostRuntime) -> anyhow::Result<()> {
    show::say(
        rt,
        "5. A network given as a table: two buses, one constraint at -2500 cents per MWh",
    )?;
    let prices = [ShadowPrice(-2_500)].to_vec(rt.alloc())?;
    let factors = [Factor(500), Factor(-500)].to_vec(rt.alloc())?;
    Table::weigh(2, prices.as_slice(), factors.as_slice())?;
    let network = Table::new(2, prices, factors);
    prices_at(rt, &network)?;
    Ok(())
}

// Bus 2 hangs from bus 1, and bus 1 from the root; the constraint is at bus 1, so it is felt at bus 2 as well.
pub(crate) fn radial(rt: &HostRuntime) -> anyhow::Result<()> {
    show::say(
        rt,
        "6. A radial network: buses 1 and 3 under the root, bus 2 under bus 1, a constraint at bus 1",
    )?;
    let uppers = [0u16, 1, 0].to_vec(rt.alloc())?;
    let constraints = [RadialConstraint {
        bus: 1,
        price: ShadowPrice(-700),
    }]
    .to_vec(rt.alloc())?;
    Radial::weigh(uppers.as_slice(), constraints.as_slice())?;
    let network = Radial::new(uppers, constraints);
    prices_at(rt, &network)?;
    Ok(())
}

// Two factors of one constraint that lie too far apart.
pub(crate) fn outside_limits(rt: &HostRuntime) -> anyhow::Result<()> {
    let Err(cause) = Table::weigh(2, &[ShadowPrice(0)], &[Factor(1_000), Factor(-1_001)]) else {
        bail!("a table outside the limits was taken");
    };
    println!(rt; "   factors of 1000 and -1001 in one constraint: {cause}")?;
    Ok(())
}

// Each constraint's factor at each bus, and the congestion price there.
fn prices_at<N: Network>(rt: &HostRuntime, network: &N) -> io::Result<()> {
    for bus in 0..network.buses() {
        for constraint in 0..network.constraints() {
            println!(rt;
                "   bus {bus}: factor {} of constraint {constraint}",
                network.factor(constraint, bus).0
            )?;
        }
        println!(rt;
            "   bus {bus}: congestion price {} thousandths of a cent per MWh",
            congestion_price(network, bus).0
        )?;
    }
    Ok(())
}
