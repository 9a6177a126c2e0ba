// Why a tick is refused.
ghost use Rattle.std.specs.Prelude.{◌≡◌};
ghost use Rattle.feeder.specs.Refusal.{number_of, place_of};

#[derive(Clone, Copy, Debug, PartialEq, Eq)]
pub enum StepRefusal {
    // the frame has no more ticks
    FrameOver,
    // an answer is brought, and none is awaited
    NotPending,
    // no answer is brought in the last tick in which it may come
    Late { tick: u32 },
}

impl StepRefusal {
    // The number by which the refusal is known outside, where numbers for refusals are a rule of the interface.
    pub fn number(&self) -> u64
        ensures { result ≡ number_of self.now }
    {
        match self {
            StepRefusal::FrameOver => 2,
            StepRefusal::NotPending => 4,
            StepRefusal::Late { .. } => 5,
        }
    }

    // The place of what is wrong, where this layer knows one: the tick's own among the numbers of a state; the tick in which an answer must come.
    pub fn place(&self) -> Option<u32>
        ensures { result ≡ place_of self.now }
    {
        match self {
            StepRefusal::FrameOver => Some(0),
            StepRefusal::NotPending => None,
            StepRefusal::Late { tick } => Some(*tick),
        }
    }
}
