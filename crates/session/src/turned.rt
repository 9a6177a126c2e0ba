// What is turned away: the number, the place, and what would have been right.
ghost use Rattle.std.specs.Prelude.{◌≡◌, Some, slice_index};
ghost use Rattle.fifo.specs.Refusal.{refusal_number, refusal_place};
ghost use Rattle.session.specs.Messages.{turned_text};
ghost use Rattle.session.specs.Reasons.{plan_why, state_why, brought_why, lent_why};
ghost use Rattle.timing.specs.Row.{place_of};

use super::whys::{CountsWhy, PlanWhy, Why};
use feeder::StateRefusal;
use fifo::Refusal;
use std::fmt;
use timing::{Numbers, Plan, PlanRefusal};

#[derive(Clone, Copy, Debug, PartialEq, Eq)]
pub struct Turned {
    // a line that is at fault has one number for every reason, so the reason alone does not say it
    pub number: u64,
    pub place: usize,
    pub why: Why,
}

impl fmt::Display for Turned {
    ghost output = { λ turned. Some (turned_text turned) };

    fn fmt<W: fmt::Write>(&self, f: &mut fmt::Formatter<W>) -> fmt::Result {
        let Turned { number, place, why } = self;
        write!(f, "turned away {number} at {place}: {why}")
    }
}

// A number of a row by its place, and 0 past the row's end: a state that is turned away may have any length.
fn number_at(row: &[u32], place: usize) -> u32
    ensures { result ≡ slice_index row.now place }
{
    row.get(place).copied().unwrap_or(0)
}

fn plan_why(row: &[u32], refusal: PlanRefusal) -> PlanWhy
    ensures { result ≡ plan_why row.now refusal }
{
    let PlanRefusal::OutOfRange { place, least, most } = refusal else {
        return PlanWhy::Length { count: row.len() };
    };
    let number = number_at(row, place);
    if number < least {
        PlanWhy::TooSmall {
            place,
            number,
            least,
        }
    } else if most < least {
        PlanWhy::NoRoomFor { place, number }
    } else {
        PlanWhy::TooLarge {
            place,
            number,
            most,
        }
    }
}

fn state_why(plan: &Plan, state: &[u32], refusal: StateRefusal) -> Why
    ensures { result ≡ state_why plan.now.numbers state.now refusal }
{
    let (tick, requested) = (number_at(state, 0), number_at(state, 1));
    let (arrived, waited) = (number_at(state, 2), number_at(state, 4));
    let (ticks, dots) = (plan.frame_ticks(), plan.frame_dots());
    let Numbers {
        capacity,
        burst,
        latency,
        ..
    } = plan.numbers();
    let room = plan.taken(tick).saturating_add(capacity);
    let pending = requested.saturating_sub(arrived);
    match refusal {
        StateRefusal::TooShort { .. } | StateRefusal::TooLong => {
            Why::StateLength { count: state.len() }
        }
        StateRefusal::FrameOver => Why::FrameOver { tick, ticks },
        StateRefusal::PendingMark => Why::Mark {
            number: number_at(state, 3),
        },
        StateRefusal::UnderrunMark => Why::Mark {
            number: number_at(state, 5),
        },
        StateRefusal::ArrivedMore => Why::Counts(CountsWhy::ArrivedMore { arrived, requested }),
        StateRefusal::PastFrame => Why::Counts(CountsWhy::PastFrame { requested, dots }),
        StateRefusal::NoRoom => Why::Counts(CountsWhy::PastRoom { requested, room }),
        StateRefusal::WaitedLong => Why::Counts(CountsWhy::WaitedLong { waited, latency }),
        StateRefusal::NothingPending => Why::Counts(CountsWhy::AllArrived { requested }),
        StateRefusal::PastBurst => Why::Counts(CountsWhy::PastBurst { pending, burst }),
        StateRefusal::NotPending => Why::Counts(CountsWhy::NotPending { requested, arrived }),
        StateRefusal::WaitedIdle => Why::Counts(CountsWhy::WaitedIdle { waited }),
    }
}

fn brought_why(state: &[u32], count: usize) -> Why
    ensures { result ≡ brought_why state.now count }
{
    let requested = number_at(state, 1);
    let arrived = number_at(state, 2);
    if arrived < requested {
        Why::NotWhole {
            count,
            pending: requested - arrived,
        }
    } else {
        Why::NothingPending { count }
    }
}

fn lent_why(plan: &Plan, state: &[u32], refusal: Refusal) -> Why
    ensures { result ≡ lent_why plan.now.numbers state.now refusal }
{
    match refusal {
        Refusal::Plan(_) => Why::Plan(PlanWhy::Length { count: 0 }),
        Refusal::State(wrong) => state_why(plan, state, wrong),
        Refusal::Ring { length } => Why::RingLength {
            length,
            room: plan.numbers().capacity,
        },
        Refusal::Brought { count } => brought_why(state, count),
        Refusal::Late { .. } => Why::Late,
    }
}

impl Turned {
    // A line that can't be read, counted from 0.
    pub fn text(line: usize, why: Why) -> Turned
        ensures { result ≡ record { number = 6; place = line; why = why } }
    {
        Turned {
            number: 6,
            place: line,
            why,
        }
    }

    // A row of numbers that is no plan.
    pub fn plan(row: &[u32], refusal: PlanRefusal) -> Turned
        ensures number { result.number ≡ 1 }
        ensures place { result.place ≡ place_of refusal }
        ensures why { result.why ≡ Why.Plan (plan_why row.now refusal) }
    {
        Turned {
            number: refusal.number(),
            place: refusal.place(),
            why: Why::Plan(plan_why(row, refusal)),
        }
    }

    // What a tick was lent.
    pub fn lent(plan: &Plan, state: &[u32], refusal: Refusal) -> Turned
        ensures number { result.number ≡ refusal_number refusal }
        ensures place { result.place ≡ refusal_place refusal }
        ensures why { result.why ≡ lent_why plan.now.numbers state.now refusal }
    {
        Turned {
            number: refusal.number(),
            place: refusal.place(),
            why: lent_why(plan, state, refusal),
        }
    }
}
