// A frame run to its end.
ghost use Rattle.std.specs.Prelude.{◌≡◌, ◌<◌, true, None};
ghost use Rattle.feeder.specs.Feed.{Ran, willing_in, FirstUnderrun, Worst, Soonest};
ghost use Rattle.feeder.specs.Model.{latest};
ghost use Rattle.feeder.specs.Panel.{in_time};
ghost use Rattle.feeder.specs.Step.{plan_in, tick_in};
ghost use Rattle.timing.specs.Frame.{frame_ticks};

use super::feeders::Feeder;
use timing::Plan;

// Whether the flags say so of this tick; past them no.
pub fn is_willing(flags: &[bool], tick: u32) -> bool
    ensures { result ≡ willing_in flags.now tick }
{
    flags.get(tick as usize).copied().unwrap_or(false)
}

// Whether a dot is missing in the feeder's next tick. That there is one is known of a loop's count, and no type's.
fn misses_next(feeder: &mut Feeder, willing: bool) -> bool
    requires { tick_in feeder.old.counts < frame_ticks (plan_in feeder.old.counts) }
    ensures { Ran feeder.old.counts willing result feeder.new.counts }
{
    // `is_some_and` was tried, and the frame's loop takes 1.3 times as long: it is not told that the frame goes on
    feeder.follow(willing).unwrap().is_missing()
}

// The first tick in which a dot is missing, by a memory that is willing in the ticks that the flags say and in none past them. It answers where it must all the same.
pub fn first_underrun(plan: Plan, willing: &[bool]) -> Option<u32>
    ensures { FirstUnderrun plan.numbers (willing_in willing.now) result }
{
    let mut feeder = Feeder::start(plan);
    for tick in 0..plan.frame_ticks() {
        if misses_next(&mut feeder, is_willing(willing, tick)) {
            return Some(tick);
        }
    }
    None
}

// The same by the memory that always takes as long as it may, which is the worst: by no other is a dot missing sooner.
pub fn first_underrun_latest(plan: Plan) -> Option<u32>
    ensures first { FirstUnderrun plan.numbers latest result }
    ensures soonest { Soonest plan.numbers result }
    ensures worst { Worst plan.numbers }
    ensures fed { in_time plan.numbers ≡ true → result ≡ None }
{
    first_underrun(plan, &[])
}
