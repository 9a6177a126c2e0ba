// Counts from six lent numbers, or why they are none.
ghost use Rattle.std.specs.Prelude.{◌≡◌, Some, None, MatchResult};
ghost use Rattle.feeder.specs.Lent.{state_refusal, mark_refusal, count_refusal, state_of, Resumed};

use super::super::lent::StateRefusal;
use super::super::states::Progress;
use super::Counts;
use timing::{Numbers, Plan, Scan};

#[tactic(auto, using(std::proofs::lemmas::Bool::Decides::nat_tests), unfolding(crate::specs::Lent::mark_refusal))]
fn check_marks(over: bool, pending: u32, underrun: u32) -> Result<(), StateRefusal>
    ensures { MatchResult result (λ _. mark_refusal over pending underrun ≡ None) (λ e. mark_refusal over pending underrun ≡ Some e) }
{
    if over {
        return Err(StateRefusal::FrameOver);
    }
    if pending > 1 {
        return Err(StateRefusal::PendingMark);
    }
    if underrun > 1 {
        return Err(StateRefusal::UnderrunMark);
    }
    Ok(())
}

#[tactic(auto, using(std::proofs::lemmas::Bool::Decides::nat_tests), unfolding(crate::specs::Lent::count_refusal))]
fn check_counts(plan: &Plan, tick: u32, f: Progress) -> Result<(), StateRefusal>
    ensures { MatchResult result (λ _. count_refusal plan.now.numbers tick f ≡ None) (λ e. count_refusal plan.now.numbers tick f ≡ Some e) }
{
    let Numbers {
        capacity,
        burst,
        latency,
        ..
    } = plan.numbers();
    if f.arrived > f.requested {
        return Err(StateRefusal::ArrivedMore);
    }
    if f.requested > plan.frame_dots() {
        return Err(StateRefusal::PastFrame);
    }
    if f.requested > plan.taken(tick) + capacity {
        return Err(StateRefusal::NoRoom);
    }
    if f.waited >= latency {
        return Err(StateRefusal::WaitedLong);
    }
    if f.pending && f.arrived == f.requested {
        return Err(StateRefusal::NothingPending);
    }
    if f.requested > f.arrived + burst {
        return Err(StateRefusal::PastBurst);
    }
    if !f.pending && f.requested != f.arrived {
        return Err(StateRefusal::NotPending);
    }
    if !f.pending && f.waited != 0 {
        return Err(StateRefusal::WaitedIdle);
    }
    Ok(())
}

impl Counts {
    // The six numbers again.
    #[tactic(auto, unfolding(crate::specs::Lent::state_of))]
    pub fn state(&self) -> [u32; 6]
        ensures { result ≡ state_of self.now }
    {
        let f = self.progress;
        [
            self.scan.tick(),
            f.requested,
            f.arrived,
            u32::from(f.pending),
            f.waited,
            u32::from(f.underrun),
        ]
    }

    // From the tick, requested, arrived, 1 if an answer is pending, for how many ticks, 1 if a dot was missing.
    pub fn resume(plan: Plan, state: &[u32]) -> Result<Counts, StateRefusal>
        ensures { MatchResult result (Resumed plan state.now) (λ e. state_refusal plan.numbers state.now ≡ Some e) }
    {
        if state.len() > 6 {
            return Err(StateRefusal::TooLong);
        }
        let &[tick, requested, arrived, pending, waited, underrun] = state else {
            return Err(StateRefusal::TooShort { place: state.len() });
        };
        let progress = Progress {
            requested,
            arrived,
            pending: pending == 1,
            waited,
            underrun: underrun == 1,
        };
        check_marks(tick >= plan.frame_ticks(), pending, underrun)?;
        check_counts(&plan, tick, progress)?;
        let scan = Scan::resume(plan, tick).unwrap();
        Ok(Counts {
            scan,
            total: plan.frame_dots(),
            progress,
        })
    }
}
