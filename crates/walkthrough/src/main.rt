// Goes through the rules by example, and says what it does at each step.
#![tactic(auto)]

mod makes;
mod show;
mod splits;

fn main(rt: HostRuntime) -> anyhow::Result<()> {
    run(&rt)
}

fn run(rt: &HostRuntime) -> anyhow::Result<()> {
    splits::congestion(rt)?;
    splits::area(rt)?;
    splits::refused(rt)?;
    splits::worked(rt)?;
    makes::table(rt)?;
    makes::radial(rt)?;
    makes::outside_limits(rt)
}
