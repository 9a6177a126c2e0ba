// Why a tick over lent numbers is refused.
ghost use Rattle.std.specs.Prelude.{◌≡◌};
ghost use Rattle.fifo.specs.Refusal.{refusal_number, refusal_place};
ghost use Rattle.fifo.specs.declared.refusals.Refusal.TheVariants.{Plan, State};

use feeder::StateRefusal;
use timing::PlanRefusal;

#[derive(Clone, Copy, Debug, PartialEq, Eq)]
pub enum Refusal {
    Plan(PlanRefusal),
    State(StateRefusal),
    // the ring has not as many places as the plan's capacity
    Ring { length: usize },
    // something is brought, and not just what is pending
    Brought { count: usize },
    // nothing is brought in the last tick in which it may come
    Late { tick: u32 },
}

impl Refusal {
    // The number by which the refusal is known outside: `tick` answers it to a program in C.
    pub fn number(&self) -> u64
        ensures { result ≡ refusal_number self.now }
    {
        match self {
            Refusal::Plan(_) => 1,
            Refusal::State(_) => 2,
            Refusal::Ring { .. } => 3,
            Refusal::Brought { .. } => 4,
            Refusal::Late { .. } => 5,
        }
    }

    // The place of what is wrong: among the numbers of the plan or the state; the ring's length; how many were brought; the tick.
    pub fn place(&self) -> usize
        ensures { result ≡ refusal_place self.now }
    {
        match self {
            Refusal::Plan(plan) => plan.place(),
            Refusal::State(state) => state.place(),
            Refusal::Ring { length } => *length,
            Refusal::Brought { count } => *count,
            Refusal::Late { tick } => *tick as usize,
        }
    }
}

impl From<PlanRefusal> for Refusal {
    ghost from_gives = { λ wrong e. e ≡ Plan wrong };

    fn from(wrong: PlanRefusal) -> Refusal {
        Refusal::Plan(wrong)
    }
}

impl From<StateRefusal> for Refusal {
    ghost from_gives = { λ wrong e. e ≡ State wrong };

    fn from(wrong: StateRefusal) -> Refusal {
        Refusal::State(wrong)
    }
}
