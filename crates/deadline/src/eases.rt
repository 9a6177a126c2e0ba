// Which plans are no harder to feed than another.
ghost use Rattle.std.specs.Prelude.{◌≡◌, true, Decides};
ghost use Rattle.deadline.specs.Rule.{AlwaysFed, Eases};
ghost use Rattle.feeder.specs.Panel.{in_time};

use timing::Plan;

// Whether `plan` is as easy to feed as `than`, or easier: then it is in time where that one is.
#[tactic(auto, using(std::proofs::lemmas::Bool::Decides::nat_tests, crate::proofs::Exacts::monotone, crate::proofs::Exacts::always_fed, timing::proofs::Goods::good_says))]
pub fn is_no_harder(plan: &Plan, than: &Plan) -> bool
    ensures decides { Decides result (Eases than.now.numbers plan.now.numbers) }
    ensures stays { Eases than.now.numbers plan.now.numbers → in_time than.now.numbers ≡ true → (in_time plan.now.numbers ≡ true) × AlwaysFed plan.now.numbers }
{
    let (new, old) = (plan.numbers(), than.numbers());
    new.latency <= old.latency
        && old.burst.min(old.latency) <= new.burst
        && old.capacity + new.burst <= new.capacity + old.burst
        && old.vblank <= new.vblank
}
