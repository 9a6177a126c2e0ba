// A frame by the latest memory, sample by sample.
ghost use Rattle.std.specs.Prelude.{◌≡◌, MatchOption};
ghost use Rattle.feeder.specs.Feed.{Over};
ghost use Rattle.feeder.specs.Step.{tick_in};
ghost use Rattle.scope.specs.Fill.{Sampled};

use super::super::samples::Sample;
use super::Probe;
use feeder::Feeder;
use timing::Plan;

impl Probe {
    // At a frame's start.
    #[tactic(auto, using(crate::proofs::Seen::late_start))]
    pub fn start(plan: Plan) -> Probe
        ensures plan { result.feeder.counts.scan.plan ≡ plan }
        ensures tick { tick_in result.feeder.counts ≡ 0 }
    {
        Probe {
            feeder: Feeder::start(plan),
        }
    }

    // The next tick of the frame; none at its end.
    pub fn sample(&mut self) -> Option<Sample>
        ensures { MatchOption result (Over self.old.feeder.counts self.new.feeder.counts) (λ s. Sampled self.old.feeder.counts s self.new.feeder.counts) }
    {
        let before = self.feeder.counts();
        let outcome = self.feeder.follow(false)?;
        let after = self.feeder.counts();
        let progress = after.progress();
        Some(Sample {
            tick: before.tick(),
            dot: outcome.takes_dot().then_some(before.taken()),
            missing: outcome.is_missing(),
            requested: progress.requested,
            arrived: progress.arrived,
            pending: progress.pending,
            fill: progress.arrived.saturating_sub(after.taken()),
        })
    }
}
