// A tick's three moves: the memory answers, the panel takes, the feeder asks.
ghost use Rattle.std.specs.Prelude.{◌≡◌, suc, ◌+◌, MatchResult, nat_le};
ghost use Rattle.timing.specs.Frame.{frame_ticks, taken};
ghost use Rattle.feeder.specs.Model.{begun, answers, after_tick, outcome};
ghost use Rattle.feeder.specs.Panel.{demand_of};
ghost use Rattle.feeder.specs.Step.{plan_in, tick_in, Allows, Refused, Steps};

use super::super::outcomes::Outcome;
use super::super::refusals::StepRefusal;
use super::super::states::Progress;
use super::Counts;
use timing::{Numbers, Plan, Scan};

impl Counts {
    // At a frame's start, which is no fact of the type, since a step ends it.
    #[tactic(auto, unfolding(crate::specs::Model::begun))]
    pub fn start(plan: Plan) -> Counts
        ensures plan { result.scan.plan ≡ plan }
        ensures tick { tick_in result ≡ 0 }
        ensures progress { result.progress ≡ begun }
    {
        Counts {
            scan: Scan::start(plan),
            total: plan.frame_dots(),
            progress: Progress::default(),
        }
    }

    pub fn plan(&self) -> Plan
        ensures { result ≡ self.now.scan.plan }
    {
        self.scan.plan()
    }

    fn numbers(&self) -> Numbers
        ensures { result ≡ plan_in self.now }
    {
        self.plan().numbers()
    }

    // The tick that comes next.
    pub fn tick(&self) -> u32
        ensures { result ≡ tick_in self.now }
    {
        self.scan.tick()
    }

    // Whether the frame's ticks are over.
    pub fn is_over(&self) -> bool
        ensures { result ≡ nat_le (frame_ticks (plan_in self.now)) (tick_in self.now) }
    {
        self.scan.is_over()
    }

    // How many dots of the frame were taken before it.
    pub fn taken(&self) -> u32
        ensures { result ≡ taken (plan_in self.now) (tick_in self.now) }
    {
        self.scan.taken()
    }

    pub fn progress(&self) -> Progress
        ensures { result ≡ self.now.progress }
    {
        self.progress
    }

    // Whether the memory answers in that tick: where it is willing, and where it must.
    #[tactic(auto, using(std::proofs::lemmas::Bool::Decides::nat_tests), unfolding(crate::specs::Model::answers, crate::specs::Panel::demand_of))]
    pub fn answers(&self, willing: bool) -> bool
        ensures { result ≡ answers (demand_of (plan_in self.now)) willing self.now.progress }
    {
        self.progress.pending && (willing || self.is_last_chance())
    }

    // Whether what is pending has to come in that tick.
    #[tactic(auto, using(crate::proofs::Plans::waited_small))]
    fn is_last_chance(&self) -> bool
        ensures { result ≡ nat_le (plan_in self.now).latency (self.now.progress.waited + 1) }
    {
        self.progress.waited + 1 >= self.numbers().latency
    }

    // That the memory may bring its answer in that tick, or may not bring it yet.
    #[tactic(auto, using(std::proofs::lemmas::Bool::Decides::nat_tests), unfolding(crate::specs::Model::answers, crate::specs::Panel::demand_of))]
    fn check(&self, brought: bool) -> Result<(), StepRefusal>
        ensures { MatchResult result (λ _. Allows self.now brought) (Refused self.now brought) }
    {
        let pending = self.progress.pending;
        if self.is_over() {
            return Err(StepRefusal::FrameOver);
        }
        if brought && !pending {
            return Err(StepRefusal::NotPending);
        }
        if !brought && pending && self.is_last_chance() {
            return Err(StepRefusal::Late { tick: self.tick() });
        }
        Ok(())
    }

    // The moves of that tick, one after the other. By its end `freed` dots are taken.
    fn moves(&self, freed: u32, brought: bool) -> (Progress, Outcome)
        requires freed { freed ≡ taken (plan_in self.now) (suc (tick_in self.now)) }
        requires allowed { answers (demand_of (plan_in self.now)) brought self.now.progress ≡ brought }
        ensures progress { result.0 ≡ after_tick (demand_of (plan_in self.now)) brought (tick_in self.now) self.now.progress }
        ensures outcome { result.1 ≡ outcome (demand_of (plan_in self.now)) brought (tick_in self.now) self.now.progress }
    {
        let Numbers {
            capacity,
            burst,
            ..
        } = self.numbers();
        let takes = self.scan.takes();
        let taken = self.scan.taken();
        let before = self.progress.answer(brought);
        let after = before
            .note(takes, taken)
            .ask(burst, self.total, freed + capacity);
        let outcome = Outcome::new(
            takes,
            before.arrived <= taken,
            after.requested - before.requested,
        );
        (after, outcome)
    }

    // One tick, in which the memory brings all that is pending or nothing.
    pub fn step(&mut self, brought: bool) -> Result<Outcome, StepRefusal>
        ensures { Steps self.old brought result self.new }
    {
        self.check(brought)?;
        let mut scan = self.scan;
        scan.advance();
        let freed = scan.taken();
        let (progress, outcome) = self.moves(freed, brought);
        self.scan = scan;
        self.progress = progress;
        Ok(outcome)
    }
}
