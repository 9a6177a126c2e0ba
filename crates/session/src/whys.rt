// What is wrong with what is turned away, with the numbers that say so and what would have been right.
ghost use Rattle.std.specs.Prelude.{◌≡◌, Some};
ghost use Rattle.session.specs.Messages.{name_text, more_text, plan_text, counts_text, why_text};

use std::fmt;

#[derive(Clone, Copy, Debug, PartialEq, Eq)]
pub enum Why {
    NoCommand,
    NotADot { at: usize, number: u32 },
    NotAllDots { count: usize, dots: u32 },
    Plan(PlanWhy),
    StateLength { count: usize },
    FrameOver { tick: u32, ticks: u32 },
    Mark { number: u32 },
    Counts(CountsWhy),
    RingLength { length: usize, room: u32 },
    NothingPending { count: usize },
    NotWhole { count: usize, pending: u32 },
    Late,
}

// Of a row that is no plan: how many numbers it has, or a number by its place.
#[derive(Clone, Copy, Debug, PartialEq, Eq)]
pub enum PlanWhy {
    Length {
        count: usize,
    },
    TooSmall {
        place: usize,
        number: u32,
        least: u32,
    },
    TooLarge {
        place: usize,
        number: u32,
        most: u32,
    },
    NoRoomFor {
        place: usize,
        number: u32,
    },
}

// Counts of a state that do not fit the plan or each other.
#[derive(Clone, Copy, Debug, PartialEq, Eq)]
pub enum CountsWhy {
    ArrivedMore { arrived: u32, requested: u32 },
    PastFrame { requested: u32, dots: u32 },
    PastRoom { requested: u32, room: u32 },
    WaitedLong { waited: u32, latency: u32 },
    AllArrived { requested: u32 },
    PastBurst { pending: u32, burst: u32 },
    NotPending { requested: u32, arrived: u32 },
    WaitedIdle { waited: u32 },
}

// A number that was too large to hold is the largest that its type has.
fn more(number: u32) -> &'static str
    ensures { result.now ≡ more_text number }
{
    if number == u32::MAX { " or more" } else { "" }
}

const NAMES: [&str; 7] = [
    "dots in a line",
    "lines",
    "ticks before a line",
    "ticks before the picture",
    "room",
    "at once",
    "latest",
];

// What a number of a plan is called, by its place.
fn name(place: usize) -> &'static str
    ensures { result.now ≡ name_text place }
{
    NAMES[place.min(6)]
}

impl fmt::Display for PlanWhy {
    ghost output = { λ why. Some (plan_text why) };

    fn fmt<W: fmt::Write>(&self, f: &mut fmt::Formatter<W>) -> fmt::Result {
        match self {
            PlanWhy::Length { count } => write!(f, "{count} numbers, a plan has 7"),
            PlanWhy::TooSmall {
                place,
                number,
                least,
            } => write!(f, "{} is {number}, at least {least}", name(*place)),
            PlanWhy::TooLarge {
                place,
                number,
                most,
            } => write!(
                f,
                "{} is {number}{}, at most {most}",
                name(*place),
                more(*number)
            ),
            PlanWhy::NoRoomFor { place, number } => write!(
                f,
                "{} is {number}{}, and there is no room for it",
                name(*place),
                more(*number)
            ),
        }
    }
}

impl fmt::Display for CountsWhy {
    ghost output = { λ why. Some (counts_text why) };

    fn fmt<W: fmt::Write>(&self, f: &mut fmt::Formatter<W>) -> fmt::Result {
        match self {
            CountsWhy::ArrivedMore { arrived, requested } => write!(
                f,
                "{arrived} have come, and {requested} were asked for"
            ),
            CountsWhy::PastFrame { requested, dots } => write!(
                f,
                "{requested} were asked for, and the picture has {dots}"
            ),
            CountsWhy::PastRoom { requested, room } => write!(
                f,
                "{requested} were asked for, and there is room up to {room}"
            ),
            CountsWhy::WaitedLong { waited, latency } => write!(
                f,
                "it waited {waited} ticks, and an answer takes {latency}"
            ),
            CountsWhy::AllArrived { requested } => write!(
                f,
                "it waits, and all {requested} have come"
            ),
            CountsWhy::PastBurst { pending, burst } => write!(
                f,
                "{pending} are waited for, and {burst} come at once"
            ),
            CountsWhy::NotPending { requested, arrived } => write!(
                f,
                "{requested} were asked for, {arrived} have come, and it does not wait"
            ),
            CountsWhy::WaitedIdle { waited } => write!(
                f,
                "it waited {waited} ticks, and it does not wait"
            ),
        }
    }
}

impl fmt::Display for Why {
    ghost output = { λ why. Some (why_text why) };

    fn fmt<W: fmt::Write>(&self, f: &mut fmt::Formatter<W>) -> fmt::Result {
        match self {
            Why::NoCommand => f.write_str("no command, see help"),
            Why::NotADot { at, number } => write!(f, "dot {at} is {number}, at most 65535"),
            Why::NotAllDots { count, dots } => write!(
                f,
                "{count} dots, and the picture has {dots}"
            ),
            Why::Plan(why) => why.fmt(f),
            Why::StateLength { count } => write!(f, "{count} numbers, a state has 6"),
            Why::FrameOver { tick, ticks } => write!(
                f,
                "the tick is {tick}, and the picture has {ticks}"
            ),
            Why::Mark { number } => write!(f, "the mark is {number}, at most 1"),
            Why::Counts(why) => why.fmt(f),
            Why::RingLength { length, room } => write!(
                f,
                "{length} dots, and there is room for {room}"
            ),
            Why::NothingPending { count } => write!(f, "{count} dots, and nothing is waited for"),
            Why::NotWhole { count, pending } => write!(
                f,
                "{count} dots, and {pending} are waited for"
            ),
            Why::Late => f.write_str("nothing is brought, and the answer must come in this tick"),
        }
    }
}
