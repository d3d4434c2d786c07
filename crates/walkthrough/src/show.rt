// How figures are told.
use anyhow::{Context, bail};
use apportion::WeightedItem;
use quantities::{Quantity, total};
use std::io;

pub(crate) fn say(rt: &HostRuntime, text: &str) -> io::Result<()> {
    println!(rt; "{text}")
}

// A number with its unit, whose name is a word of this program: with a `Display` for each kind there would be five twins.
pub(crate) fn figure(rt: &HostRuntime, what: &str, number: i64, unit: &str) -> io::Result<()> {
    println!(rt; "   {what}: {number} {unit}")
}

// Each item's bus and weight, and its share.
pub(crate) fn shares<Q: Quantity, I: WeightedItem>(
    rt: &HostRuntime,
    items: &[I],
    row: &[Q],
    unit: &str,
) -> io::Result<()> {
    for (item, share) in items.iter().zip(row.iter()) {
        println!(rt;
            "   bus {} weighs {} and gets {} {unit}",
            item.bus(),
            item.weight(),
            share.units()
        )?;
    }
    Ok(())
}

// The sum of the shares beside the amount that was split.
pub(crate) fn sum<Q: Quantity>(
    rt: &HostRuntime,
    amount: Q,
    row: &[Q],
    unit: &str,
) -> anyhow::Result<()> {
    let sum = total(row).context("the shares do not fit 64 bits")?;
    if sum.units() != amount.units() {
        bail!("the shares do not add up");
    }
    figure(
        rt,
        "the shares add up to the whole amount",
        sum.units(),
        unit,
    )?;
    Ok(())
}

pub(crate) fn row<Q: Quantity>(rt: &HostRuntime, what: &str, row: &[Q]) -> io::Result<()> {
    print!(rt; "   {what}:")?;
    for quantity in row {
        print!(rt; " {}", quantity.units())?;
    }
    say(rt, "")
}
