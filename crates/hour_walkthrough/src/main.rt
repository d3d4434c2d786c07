// One hour from the first posting to the second closing: calls that are taken, and calls that are refused.
#![tactic(auto)]

use apportion::AreaMember;
use hours::{ClosedHour, DayAhead, Hour, RealTime, weigh_making};
use positions::{BusPosition, Class, Position, Transaction};
use register::Accepted::{RecordNumber, Taken};
use register::Answer;
use std::io;

fn main(rt: HostRuntime) -> anyhow::Result<()> {
    run(&rt)
}

fn run(rt: &HostRuntime) -> anyhow::Result<()> {
    println!(rt; "An hour of two buses, with six bus positions and two transactions at most")?;
    let mut positions = [BusPosition::new(0, Class::Load, 0, 0); 6];
    let mut transactions = [Transaction::new(0, 0, 0, 0); 2];
    weigh_making(2, &positions, &transactions)?;
    let mut hour = Hour::new(2, &mut positions, &mut transactions);
    day_ahead(rt, &mut hour)?;
    hour.weigh_closing()?;
    let mut hour = hour.close();
    println!(rt; "   day-ahead is closed, and real time is open")?;
    real_time(rt, &mut hour)?;
    hour.weigh_closing()?;
    let hour = hour.close();
    println!(rt; "   the hour is closed")?;
    records(rt, &hour)?;
    Ok(())
}

fn day_ahead(rt: &HostRuntime, hour: &mut DayAhead) -> io::Result<()> {
    answered(
        rt,
        "load 1000 at bus 1",
        hour.post(0, 1, 1, 1_000).map(RecordNumber),
    )?;
    answered(
        rt,
        "generation 900 at bus 0",
        hour.post(1, 3, 0, 900).map(RecordNumber),
    )?;
    answered(
        rt,
        "load 5 at bus 2",
        hour.post(0, 1, 2, 5).map(RecordNumber),
    )?;
    let moved = hour.post_transaction(2, 0, 1, 50);
    answered(
        rt,
        "transaction 50 from bus 0 to bus 1",
        moved.map(RecordNumber),
    )?;
    answered(rt, "closing", hour.weigh_closing().map(|()| Taken))?;
    answered(
        rt,
        "record 1 amended to 1000",
        hour.amend_position(1, 1_000).map(|()| Taken),
    )
}

fn real_time(rt: &HostRuntime, hour: &mut RealTime) -> io::Result<()> {
    let members = [
        AreaMember {
            bus: 0,
            share: 3_333,
        },
        AreaMember {
            bus: 1,
            share: 6_667,
        },
    ];
    answered(
        rt,
        "decrement bid 7 at bus 1",
        hour.post(0, 2, 1, 7).map(RecordNumber),
    )?;
    answered(
        rt,
        "record 0 amended to 0",
        hour.amend_position(0, 0).map(|()| Taken),
    )?;
    answered(
        rt,
        "area 901 over both buses",
        hour.post_area(0, 901, &members).map(RecordNumber),
    )?;
    answered(
        rt,
        "generation 901 at bus 0",
        hour.post(1, 3, 0, 901).map(RecordNumber),
    )
}

// What a call answers: that it is taken, or why it is refused.
fn answered(rt: &HostRuntime, what: &str, answer: Answer) -> io::Result<()> {
    match answer {
        Ok(accepted) => println!(rt; "   {what}: {accepted}"),
        Err(cause) => println!(rt; "   {what}: {cause}"),
    }
}

fn records(rt: &HostRuntime, hour: &ClosedHour) -> io::Result<()> {
    let front = hour.day_ahead().positions.len();
    for (number, position) in hour.standing().positions.iter().enumerate() {
        let phase = if number < front {
            "day-ahead"
        } else {
            "real time"
        };
        println!(rt;
            "   record {number}, {phase}: participant {} has {} tenths at bus {}",
            position.participant(),
            position.tenths(),
            position.bus
        )?;
    }
    Ok(())
}
