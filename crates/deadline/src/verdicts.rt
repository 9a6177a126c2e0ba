// What the rule says of a plan.
ghost use Rattle.std.specs.Prelude.{◌≡◌};
ghost use Rattle.deadline.specs.Verdict.{number_of};

use timing::PlanRefusal;

// One enum and no `Result`, since each case has its number outside.
#[derive(Clone, Copy, Debug, PartialEq, Eq)]
pub enum Verdict {
    // no dot is ever missing, whenever the memory answers within its time
    InTime,
    // the numbers are no plan
    TurnedAway(PlanRefusal),
    // an answer may take more ticks than it brings dots: the burst would have to be the latency or more
    Slow {
        burst: u32,
        latency: u32,
    },
    // what is used while an answer is awaited has no room beside a burst: the capacity would have to be the burst and one less than the latency
    Cramped {
        capacity: u32,
        needed: u32,
        burst: u32,
        latency: u32,
    },
    // the first dot is used before the first answer need have come: the vblank would have to be the latency or more
    Sudden {
        vblank: u32,
        latency: u32,
    },
}

impl Verdict {
    // The number by which the verdict is known outside, where numbers are a rule of the interface.
    pub fn number(&self) -> u64
        ensures { result ≡ number_of self.now }
    {
        match self {
            Verdict::InTime => 0,
            Verdict::TurnedAway(_) => 1,
            Verdict::Slow { .. } => 2,
            Verdict::Cramped { .. } => 3,
            Verdict::Sudden { .. } => 4,
        }
    }
}
