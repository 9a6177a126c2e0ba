// Why six lent numbers are no feeder's.
ghost use Rattle.std.specs.Prelude.{◌≡◌};
ghost use Rattle.feeder.specs.Lent.{state_number, state_place};

#[derive(Clone, Copy, Debug, PartialEq, Eq)]
pub enum StateRefusal {
    // fewer than six numbers: the first place that is lacking
    TooShort { place: usize },
    // more than six numbers
    TooLong,
    // the tick is past the frame's last
    FrameOver,
    // the marks for a pending answer and for an underrun are 0 or 1
    PendingMark,
    UnderrunMark,
    // more has arrived than was requested
    ArrivedMore,
    // more is requested than the frame has, or than there is room for
    PastFrame,
    NoRoom,
    // an answer never takes that long
    WaitedLong,
    // an answer is pending, and all that was requested has arrived
    NothingPending,
    // more is pending than one answer brings
    PastBurst,
    // no answer is pending, and not all that was requested has arrived, or it was waited for one
    NotPending,
    WaitedIdle,
}

impl StateRefusal {
    // The number by which the refusal is known outside, where numbers for refusals are a rule of the interface.
    pub fn number(&self) -> u64
        ensures { result ≡ state_number self.now }
    {
        2
    }

    // The place among the six numbers, from 0, of what is wrong.
    pub fn place(&self) -> usize
        ensures { result ≡ state_place self.now }
    {
        match self {
            StateRefusal::TooShort { place } => *place,
            StateRefusal::TooLong => 6,
            StateRefusal::FrameOver => 0,
            StateRefusal::PastFrame | StateRefusal::NoRoom => 1,
            StateRefusal::PastBurst | StateRefusal::NotPending => 1,
            StateRefusal::ArrivedMore => 2,
            StateRefusal::PendingMark | StateRefusal::NothingPending => 3,
            StateRefusal::WaitedLong | StateRefusal::WaitedIdle => 4,
            StateRefusal::UnderrunMark => 5,
        }
    }
}
