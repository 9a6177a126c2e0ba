// Tries the rule out: every way of answering on every small plan, and the latest memory on lines that are just long enough.
#![tactic(auto)]

mod longs;
mod smalls;
mod sweeps;
mod trials;
mod ways;

fn main(rt: HostRuntime) -> anyhow::Result<()> {
    let small = smalls::sweep();
    println!(rt;
        "small plans: {}, ways of answering: {}, a dot missing by {}, disagreements: {}",
        small.plans, small.ways, small.underruns, small.disagreements
    )?;
    let long = longs::sweep();
    println!(rt;
        "long lines: {}, in time: {}, disagreements: {}",
        long.plans, long.timely, long.disagreements
    )?;
    Ok(())
}
