// The rule over a plan and over a row of numbers.
ghost use Rattle.std.specs.Prelude.{◌≡◌, true, Decides};
ghost use Rattle.deadline.specs.Rule.{AlwaysFed, Monotone, Exact};
ghost use Rattle.deadline.specs.Verdict.{verdict_of, is_plan, verdict_in, Judges};
ghost use Rattle.deadline.specs.declared.verdicts.Verdict.TheVariants.{InTime};
ghost use Rattle.feeder.specs.Panel.{in_time};
ghost use Rattle.timing.specs.Row.{numbers_in};

use super::verdicts::Verdict;
use timing::{Numbers, Plan};

// The first of the three conditions that the plan does not meet, or that it meets them all.
#[tactic(auto, using(crate::proofs::Judged::judged, crate::proofs::Exacts::monotone, crate::proofs::Exacts::exact, timing::proofs::Goods::good_says), unfolding(crate::specs::Verdict::verdict_of))]
pub fn judge(plan: &Plan) -> Verdict
    ensures verdict { result ≡ verdict_of plan.now.numbers }
    ensures rule { Decides (in_time plan.now.numbers) (result ≡ InTime) }
    ensures monotone { Monotone plan.now.numbers }
    ensures exact { Exact plan.now.numbers }
{
    let Numbers {
        vblank,
        capacity,
        burst,
        latency,
        ..
    } = plan.numbers();
    if latency > burst {
        return Verdict::Slow { burst, latency };
    }
    if burst + latency > capacity + 1 {
        return Verdict::Cramped {
            capacity,
            needed: burst + latency - 1,
            burst,
            latency,
        };
    }
    if latency > vblank {
        return Verdict::Sudden { vblank, latency };
    }
    Verdict::InTime
}

// The same for seven numbers, good or not.
pub fn judge_row(row: &[u32]) -> Verdict
    ensures { Judges row.now result }
{
    Plan::new(row).map_or_else(Verdict::TurnedAway, |plan| judge(&plan))
}

// The verdict as outside knows it, by a form that is fixed: 0 in time, 1 no plan, then which condition is the first that is not met.
#[tactic(auto, using(crate::proofs::Judged::number_judged, crate::proofs::Judged::fed_by_number, crate::proofs::Judged::exact_row))]
pub fn in_time(plan: &[u32]) -> u64
    ensures number { result ≡ verdict_in plan.now }
    ensures fed { result ≡ 0 → AlwaysFed (numbers_in plan.now) }
    ensures exact { is_plan plan.now ≡ true → Exact (numbers_in plan.now) }
{
    judge_row(plan).number()
}
