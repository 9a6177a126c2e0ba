// A feeder from a frame's start, tick by tick.
ghost use Rattle.std.specs.Prelude.{◌≡◌, true, IfSome, IfOk, MatchOption};
ghost use Rattle.feeder.specs.Feed.{Fed, Held, Whole, Over, Follows};
ghost use Rattle.feeder.specs.Model.{begun};
ghost use Rattle.feeder.specs.Panel.{in_time, ByPlan};
ghost use Rattle.feeder.specs.Step.{plan_in, tick_in, Steps};

use super::super::counts::Counts;
use super::super::outcomes::Outcome;
use super::super::refusals::StepRefusal;
use super::super::states::Progress;
use super::Feeder;
use timing::Plan;

impl Feeder {
    // At a frame's start, which is no fact of the type, since a step ends it.
    pub fn start(plan: Plan) -> Feeder
        ensures plan { result.counts.scan.plan ≡ plan }
        ensures tick { tick_in result.counts ≡ 0 }
        ensures progress { result.counts.progress ≡ begun }
        ensures model { ByPlan plan.numbers }
    {
        Feeder {
            counts: Counts::start(plan),
        }
    }

    pub fn counts(&self) -> Counts
        ensures { result ≡ self.now.counts }
    {
        self.counts
    }

    // One tick, in which the memory brings all that is pending or nothing. By a plan in time no dot is ever missing.
    pub fn step(&mut self, brought: bool) -> Result<Outcome, StepRefusal>
        ensures steps { Steps self.old.counts brought result self.new.counts }
        ensures fed { in_time (plan_in self.old.counts) ≡ true → IfOk result Fed }
        ensures held { Held self.new.counts }
        ensures whole { Whole self.new.counts }
    {
        self.counts.step(brought)
    }

    // One tick in which the memory answers where it is willing, and where it must; none at the frame's end.
    pub fn follow(&mut self, willing: bool) -> Option<Outcome>
        ensures follows { MatchOption result (Over self.old.counts self.new.counts) (λ o. Follows self.old.counts willing o self.new.counts) }
        ensures fed { in_time (plan_in self.old.counts) ≡ true → IfSome result Fed }
    {
        let brought = self.counts.answers(willing);
        self.step(brought).ok()
    }
}
