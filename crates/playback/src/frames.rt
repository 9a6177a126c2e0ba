// Frames from first tick to last, with any memory and any screen.
ghost use Rattle.std.specs.Prelude.{◌≡◌, ℕ, ◌<◌, Bool, true, length, MatchResult};
ghost use Rattle.timing.specs.Frame.{frame_ticks};
ghost use Rattle.feeder.specs.Feed.{FirstUnderrun};
ghost use Rattle.feeder.specs.Panel.{in_time};
ghost use Rattle.feeder.specs.Step.{plan_in, tick_in};
ghost use Rattle.fifo.specs.Frame.{Kept};
ghost use Rattle.fifo.specs.Script.{willing};
ghost use Rattle.playback.specs.Frame.{Served, Shown, pixel_in, underrun_in, PlaysAll, InPlace, Complete};

use super::screens::Screen;
use super::scripted::Scripted;
use super::underruns::Underrun;
use fifo::{Fifo, Refusal};
use timing::Plan;

// One tick, shown: whether its dot is missing. That there is one is known of a loop's count, and no type's.
fn serve<M: Scripted, S: Screen>(
    fifo: &mut Fifo,
    ring: &mut [u16],
    memory: &mut M,
    screen: &mut S,
) -> bool
    requires size { length ring.old ≡ (plan_in fifo.old.feeder.counts).capacity }
    requires kept { Kept fifo.old ring.old ((M.Memory.script memory.old).dots 0) }
    requires inside { tick_in fifo.old.feeder.counts < frame_ticks (plan_in fifo.old.feeder.counts) }
    ensures same { M.Memory.script memory.new ≡ M.Memory.script memory.old }
    ensures served { Served S.Screen.accepts (M.Memory.script memory.old) fifo.old screen.old result fifo.new ring.new screen.new }
{
    let pixel = fifo.step(ring, memory).unwrap();
    screen.show(pixel);
    pixel.is_missing()
}

// A frame, and the first of its ticks in which a dot is missing. The ring, the memory and the screen are lent on as they came: a struct of the three would be made to be taken apart again.
fn frame<M: Scripted, S: Screen>(
    plan: Plan,
    ring: &mut [u16],
    memory: &mut M,
    screen: &mut S,
) -> Option<u32>
    requires { length ring.old ≡ plan.numbers.capacity }
    ensures same { M.Memory.script memory.new ≡ M.Memory.script memory.old }
    ensures shown { Shown S.Screen.accepts (pixel_in plan.numbers (willing (M.Memory.script memory.old) 0) ((M.Memory.script memory.old).dots 0)) (frame_ticks plan.numbers) screen.old screen.new }
    ensures first { FirstUnderrun plan.numbers (willing (M.Memory.script memory.old) 0) result }
{
    let mut fifo = Fifo::start(plan);
    let mut first = None;
    for tick in 0..plan.frame_ticks() {
        let missing = serve(&mut fifo, ring, memory, screen);
        first = first.or(missing.then_some(tick));
    }
    first
}

// Frame after frame, each from a feeder that has requested nothing: the first dot that is missing, if any. Refused, with nothing shown, by a ring of another length than the capacity.
pub fn play<M: Scripted, S: Screen>(
    plan: Plan,
    ring: &mut [u16],
    memory: &mut M,
    screen: &mut S,
    frames: u32,
) -> Result<Option<Underrun>, Refusal>
    ensures plays { PlaysAll M.Memory.script S.Screen.accepts plan.numbers frames memory.old ring.old screen.old result memory.new ring.new screen.new }
    ensures place { (w : ℕ → Bool) (picture : ℕ → ℕ) → InPlace plan.numbers w picture }
    ensures complete { in_time plan.numbers ≡ true → (w : ℕ → Bool) (picture : ℕ → ℕ) → Complete plan.numbers w picture }
{
    if ring.len() != plan.numbers().capacity as usize {
        return Err(Refusal::Ring { length: ring.len() });
    }
    let mut first = None;
    for number in 0..frames {
        let missing = frame(plan, ring, memory, screen);
        memory.turn();
        first = first.or(missing.map(move |tick| Underrun {
            frame: number,
            tick,
        }));
    }
    Ok(first)
}
