// Frames that are played, charted and traced on standard output.
use super::charts::Drawing;
use super::lines::Lines;
use super::meters::Meter;
use super::traces::Trace;
use anyhow::anyhow;
use feeder::first_underrun_latest;
use fifo::{Answering, Numbered, Picture, Stored, Willing};
use playback::play;
use scope::{Probe, Sample};
use session::{Bench, Reply};
use std::io::BufWriter;
use timing::Plan;

// Prints the frame's dots as it is played, and then the first tick in which one was missing.
fn show<P: Picture + Drop, W: Willing + Drop>(
    rt: &HostRuntime,
    plan: Plan,
    picture: P,
    willing: W,
) -> anyhow::Result<()> {
    let numbers = plan.numbers();
    let mut ring = Vec::from_elem(rt.alloc(), 0u16, numbers.capacity as usize)?;
    let meter = Meter::new(rt.stderr(), &plan);
    let out = BufWriter::new(rt.alloc(), rt.stdout())?;
    let mut lines = Lines::new(out, meter, numbers.width);
    let mut memory = Answering { picture, willing };
    let played = play(plan, ring.as_mut_slice(), &mut memory, &mut lines, 1);
    lines.finish()?;
    let underrun = played.map_err(|_| anyhow!("a ring of another length"))?;
    rt.print(Reply::Missing(underrun.map(|first| first.tick)))?;
    Ok(())
}

// By a memory with the bench's picture.
pub fn run<W: Willing + Drop>(rt: &HostRuntime, bench: &Bench, willing: W) -> anyhow::Result<()> {
    match &bench.dots {
        Some(dots) => {
            let dots = dots.as_slice();
            show(rt, bench.plan, Stored { dots }, willing)
        }
        None => show(rt, bench.plan, Numbered, willing),
    }
}

pub fn chart(rt: &HostRuntime, plan: Plan) -> anyhow::Result<()> {
    let missing = first_underrun_latest(plan);
    rt.print(Drawing::new(plan, missing))?;
    rt.print(Reply::Missing(missing))?;
    Ok(())
}

// Whether the last dot of a line is taken.
fn ends_line(sample: &Sample, width: u32) -> bool {
    sample
        .dot
        .is_some_and(|dot| width > 0 && dot % width == width - 1)
}

// Nothing is said behind the frame, so that the output is a file.
pub fn trace(rt: &HostRuntime, plan: Plan) -> anyhow::Result<()> {
    let mut trace = Trace::start(BufWriter::new(rt.alloc(), rt.stdout())?)?;
    let mut meter = Meter::new(rt.stderr(), &plan);
    let mut probe = Probe::start(plan);
    let width = plan.numbers().width;
    while let Some(sample) = probe.sample() {
        trace.write(sample)?;
        if ends_line(&sample, width) {
            meter.line();
        }
    }
    trace.finish()?;
    Ok(())
}
