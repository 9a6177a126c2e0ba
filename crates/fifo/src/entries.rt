// The entries over lent numbers, for a circuit's program to call.
ghost use Rattle.std.specs.Prelude.{◌≡◌, ◌≤◌, length, MatchResult};
ghost use Rattle.timing.specs.Frame.{taken};
ghost use Rattle.timing.specs.Row.{numbers_in};
ghost use Rattle.feeder.specs.Lent.{tick_at, progress_at};
ghost use Rattle.feeder.specs.Step.{plan_in, tick_in};
ghost use Rattle.fifo.specs.Entry.{Opened, Ready, Going, Exchanged, TriesTick, TickSays, Fits, NextSays, TwoParts};
ghost use Rattle.fifo.specs.Refusal.{Misfits, Refuses, refusal, may_bring, must_bring};

use super::outs::Out;
use super::pixels::Exchange;
use super::refusals::Refusal;
use super::rings::fill;
use feeder::{Counts, Progress};
use timing::Plan;

// A plan, a state and the length of a ring that fit each other.
fn open(plan: &[u32], state: &[u32], length: usize) -> Result<Counts, Refusal>
    ensures { MatchResult result (Opened plan.now state.now length) (Misfits plan.now state.now length) }
{
    let plan = Plan::new(plan)?;
    let counts = Counts::resume(plan, state)?;
    if length != plan.numbers().capacity as usize {
        return Err(Refusal::Ring { length });
    }
    Ok(counts)
}

fn may_bring(f: Progress, brought: usize) -> bool
    requires { f.arrived ≤ f.requested }
    ensures { result ≡ may_bring f brought }
{
    if brought == 0 {
        return true;
    }
    f.pending && brought == (f.requested - f.arrived) as usize
}

fn is_late(counts: &Counts, brought: usize) -> bool
    ensures { result ≡ must_bring (plan_in counts.now) counts.now.progress brought }
{
    if brought != 0 {
        return false;
    }
    counts.answers(false)
}

// The same, and what is brought may be. The first that is wrong is the refusal. Parameters and no struct, as a circuit's program lends them to `tick`.
pub fn accept(plan: &[u32], state: &[u32], length: usize, brought: usize) -> Result<Counts, Refusal>
    ensures { MatchResult result (Ready plan.now state.now length brought) (Refuses plan.now state.now length brought) }
{
    let counts = open(plan, state, length)?;
    if !may_bring(counts.progress(), brought) {
        return Err(Refusal::Brought { count: brought });
    }
    if is_late(&counts, brought) {
        return Err(Refusal::Late {
            tick: counts.tick(),
        });
    }
    Ok(counts)
}

fn advance(mut counts: Counts, state: &mut [u32], ring: &mut [u16], brought: &[u16]) -> Exchange
    requires six { length state.old ≡ 6 }
    requires going { Going counts (length ring.old) (length brought.now) }
    ensures { Exchanged (plan_in counts) (tick_in counts) counts.progress ring.old brought.now result state.new ring.new }
{
    let arrived = counts.progress().arrived;
    let next = counts.taken() as usize % ring.len();
    fill(ring, arrived, arrived as usize % ring.len(), brought);
    let dot = ring[next];
    let outcome = counts.step(!brought.is_empty()).unwrap();
    state.copy_from_slice(&counts.state());
    Exchange::of(outcome, dot)
}

// One tick of the plan's frame: the state's six numbers and the ring go on by it. What is refused changes nothing.
pub fn try_tick(
    plan: &[u32],
    state: &mut [u32],
    ring: &mut [u16],
    brought: &[u16],
) -> Result<Exchange, Refusal>
    ensures { TriesTick plan.now state.old ring.old brought.now result state.new ring.new }
{
    let counts = accept(plan, state, ring.len(), brought.len())?;
    Ok(advance(counts, state, ring, brought))
}

// The same for a circuit's program, which gets the refusal's number alone.
pub fn tick(plan: &[u32], state: &mut [u32], ring: &mut [u16], brought: &[u16]) -> Out
    ensures { TickSays (refusal plan.now state.old (length ring.old) (length brought.now)) plan.now state.old ring.old brought.now result state.new ring.new }
{
    match try_tick(plan, state, ring, brought) {
        Ok(exchange) => Out::from(exchange),
        Err(refusal) => Out::Refused(refusal.number()),
    }
}

// The dots that are taken next, up to the ring's end or to the last that has arrived; none where the plan, the state or the ring is refused.
pub fn next_dots<'a>(plan: &[u32], state: &[u32], ring: &'a [u16]) -> &'a [u16]
    ensures says { NextSays plan.now state.now ring.now result.now }
    ensures whole { Fits plan.now state.now ring.now → TwoParts (length ring.now) (taken (numbers_in plan.now) (tick_at state.now)) (progress_at state.now).arrived ring.now }
{
    let Ok(counts) = open(plan, state, ring.len()) else {
        return &ring[0..0];
    };
    let taken = counts.taken() as usize;
    let arrived = counts.progress().arrived as usize;
    let at = taken % ring.len();
    let count = arrived.saturating_sub(taken).min(ring.len() - at);
    &ring[at..at + count]
}
