// One constraint's congestion and one area's load, each split over buses; a split that is refused; and splits by hand.
use crate::show;
use anyhow::{Context, bail};
use apportion::{AreaMember, LoadBus, split, worked_cents, worked_splits};
use quantities::{Cents, Flow, Megawatts, ShadowPrice};

// From the flow over a constraint to whole cents at each load bus behind it.
pub(crate) fn congestion(rt: &HostRuntime) -> anyhow::Result<()> {
    show::say(rt, "1. A constraint's congestion, split over load buses")?;
    let price = ShadowPrice(-2_499);
    let flow = Flow(-1_233_100);
    show::figure(rt, "shadow price", i64::from(price.0), "cents per MWh")?;
    show::figure(rt, "flow", flow.0, "thousandths of a tenth of a megawatt")?;
    let grains = price
        .times_flow(flow)
        .context("the congestion does not fit 64 bits")?;
    let cents = grains.floor_to_cents();
    show::figure(rt, "congestion is price times flow", grains.0, "grains")?;
    show::figure(rt, "rounded down", cents.0, "cents")?;
    show::say(
        rt,
        "   a bus weighs the distance of its factor from the upstream factor, times its load",
    )?;
    let buses = [
        LoadBus { bus: 0, weight: 0 },
        LoadBus {
            bus: 1,
            weight: 1_000_000,
        },
        LoadBus {
            bus: 2,
            weight: 233_100,
        },
    ];
    let mut row = [Cents(0); 3];
    split(cents, &buses, &mut row)?;
    show::shares(rt, &buses, &row, "cents")?;
    show::sum(rt, cents, &row, "cents")
}

// From the load of an area to whole tenths of a megawatt at each of its buses.
pub(crate) fn area(rt: &HostRuntime) -> anyhow::Result<()> {
    show::say(rt, "2. An area's load, split over its buses")?;
    let load = Megawatts::withdrawal(1_001);
    show::figure(rt, "the area withdraws", load.0, "tenths of a megawatt")?;
    show::say(rt, "   a bus weighs its share, in hundredths of a percent")?;
    let members = [
        AreaMember {
            bus: 4,
            share: 3_333,
        },
        AreaMember {
            bus: 5,
            share: 3_333,
        },
        AreaMember {
            bus: 7,
            share: 3_334,
        },
    ];
    let mut row = [Megawatts(0); 3];
    split(load, &members, &mut row)?;
    show::shares(rt, &members, &row, "tenths of a megawatt")?;
    show::sum(rt, load, &row, "tenths of a megawatt")
}

// A refusal has its number, and leaves the row as it was.
pub(crate) fn refused(rt: &HostRuntime) -> anyhow::Result<()> {
    show::say(rt, "3. A split that is refused")?;
    let buses = [LoadBus { bus: 0, weight: 0 }];
    let mut row = [Cents(7); 1];
    let Err(cause) = split(Cents(100), &buses, &mut row) else {
        bail!("a split over no weight was taken");
    };
    println!(rt; "   100 cents over a weight of 0: {cause}")?;
    show::row(rt, "the row still holds", &row)?;
    Ok(())
}

// The splits and carried cents that were worked out by hand.
pub(crate) fn worked(rt: &HostRuntime) -> anyhow::Result<()> {
    show::say(rt, "4. Worked out by hand")?;
    let splits = worked_splits()?;
    show::row(rt, "100 cents over 1, 1, 1", &splits.hundred)?;
    show::row(rt, "-100 cents over 1, 1, 1", &splits.hundred_below_nought)?;
    show::row(rt, "6 cents over 1, 1, 1, 1", &splits.six)?;
    show::row(rt, "10 tenths over 3333, 3333, 3334", &splits.area)?;
    let carried = worked_cents()?;
    show::row(rt, "exact grains", &carried.twice)?;
    show::row(rt, "carried to cents", &carried.twice_in_cents)?;
    show::row(rt, "exact grains", &carried.below_nought)?;
    show::row(rt, "carried to cents", &carried.below_nought_in_cents)?;
    Ok(())
}
