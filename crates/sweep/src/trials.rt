// One plan against the rule, by every way of answering in its first ticks.
ghost use Rattle.std.specs.Prelude.{◌≡◌, ℕ, ◌+◌, ◌*◌, ◌≤◌, Bool, false};
ghost use Rattle.deadline.specs.Rule.{Exact};
ghost use Rattle.feeder.specs.Feed.{FirstUnderrun, Soonest};
ghost use Rattle.feeder.specs.Panel.{in_time};
ghost use Rattle.sweep.specs.Trial.{sooner, Tried};
ghost use Rattle.timing.specs.Frame.{frame_dots};

use super::ways::flags_of;
use deadline::{Verdict, judge};
use feeder::{first_underrun, first_underrun_latest};
use timing::Plan;

#[derive(Clone, Copy, Debug, PartialEq, Eq)]
pub struct Trial {
    // ways of answering
    pub ways: u32,
    // by how many of them a dot is missing
    pub underruns: u32,
    // how many disagree with the rule
    pub disagreements: u32,
}

// Whether the plan is in time by the rule.
pub fn is_in_time(plan: &Plan) -> bool
    ensures rule { result ≡ in_time plan.now.numbers }
    ensures exact { Exact plan.now.numbers }
{
    matches!(judge(plan), Verdict::InTime)
}

// Whether a dot is missing by the one before it is by the other.
fn is_sooner(first: Option<u32>, other: Option<u32>) -> bool
    ensures { result ≡ sooner first other }
{
    first.is_some_and(|tick| other.is_none_or(|late| tick < late))
}

// Whether a dot is missing though the plan is in time, or sooner than by the latest memory.
fn disagrees(plan: &Plan, first: Option<u32>, worst: Option<u32>) -> bool
    ensures { (w : ℕ → Bool) → FirstUnderrun plan.now.numbers w first → Soonest plan.now.numbers worst → result ≡ false }
{
    is_sooner(first, worst) || (is_in_time(plan) && first.is_some())
}

// Every way of answering in the first 20 ticks, and so in all of them if a frame has no more.
pub fn try_ways(plan: Plan) -> Trial
    ensures { Tried plan.numbers result }
{
    let worst = first_underrun_latest(plan);
    let ways = 1 << plan.frame_ticks().min(20);
    let mut underruns = 0;
    let mut disagreements = 0;
    for way in 0..ways {
        let first = first_underrun(plan, &flags_of(way));
        underruns += u32::from(first.is_some());
        disagreements += u32::from(disagrees(&plan, first, worst));
    }
    Trial {
        ways,
        underruns,
        disagreements,
    }
}

// The latest memory alone, which agrees where it leaves a dot missing just by a plan that is not in time.
pub fn try_latest(plan: Plan) -> Trial
    ensures ways { result.ways ≡ 1 }
    ensures underruns { result.underruns ≤ 1 }
    ensures agreed { plan.numbers.hblank ≡ 0 → (plan.numbers.capacity + plan.numbers.burst) * plan.numbers.latency ≤ frame_dots plan.numbers → result.disagreements ≡ 0 }
{
    let missing = first_underrun_latest(plan).is_some();
    Trial {
        ways: 1,
        underruns: u32::from(missing),
        disagreements: u32::from(is_in_time(&plan) == missing),
    }
}
