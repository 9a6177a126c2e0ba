// Replies as values, and how they are written.
ghost use Rattle.std.specs.Prelude.{◌≡◌, Some};
ghost use Rattle.session.specs.Help.{help_text};
ghost use Rattle.session.specs.Parts.{verdict_text, pixel_text, numbers_text};
ghost use Rattle.session.specs.Replies.{reply_text};
ghost use Rattle.session.specs.declared.replies.Reply.TheVariants.{Plan as ofPlan};
ghost use Rattle.timing.specs.Frame.{frame_ticks, frame_dots};

use super::turned::Turned;
use deadline::Verdict;
use fifo::{Exchange, Pixel};
use std::fmt;
use text::Row;
use timing::{Dot, Plan};

#[derive(Debug, PartialEq, Drop)]
pub enum Reply {
    Help,
    NoPlan,
    // a plan is kept, and something else is
    Plan { ticks: u32, dots: u32 },
    Kept,
    Verdict(Verdict),
    Tick(Option<u32>),
    Dot(Option<Dot>),
    State([u32; 6]),
    Gives(Exchange),
    // the dots that come next
    Next(Vec<u16>),
    // the first tick of a frame in which a dot was missing
    Missing(Option<u32>),
    Refused(Turned),
}

impl From<Plan> for Reply {
    ghost from_gives = { λ plan reply. reply ≡ ofPlan (frame_ticks plan.numbers) (frame_dots plan.numbers) };

    fn from(plan: Plan) -> Reply {
        Reply::Plan {
            ticks: plan.frame_ticks(),
            dots: plan.frame_dots(),
        }
    }
}

const HELP: &str =
    "plan W H L P R B T   keep a plan: dots in a line, lines, ticks before a line and before the picture, room, at once, latest
in time?             whether no dot can ever be missing, or the first thing that is too small
when X Y             the tick in which dot X of line Y is taken
at T                 the dot that is taken in tick T
dots D D ..          the picture's dots, as many as it has; without this they are numbered from 0
run latest           a picture, by a memory that always takes as long as it may
run by 1 0 0 1       a picture, by a memory that is willing in the ticks marked 1, and answers when it must
chart latest         the store's fill over that picture, in 80 columns
trace latest         that picture as a VCD file, for a waveform viewer
state                the six numbers: the tick, asked for, come, 1 if it waits, for how many ticks, 1 if one was missing
state N N N N N N    set them
ring D D ..          set the store's places
tick                 one tick in which the memory brings nothing
tick D D ..          one tick in which it brings these dots
next                 the dots that come next, as the part of the store that is handed back
help                 this list
";

fn help() -> &'static str
    ensures { result.now ≡ help_text }
{
    HELP
}

// A verdict as a line.
#[derive(Clone, Copy)]
struct VerdictLine(Verdict);

impl fmt::Display for VerdictLine {
    ghost output = { λ line. Some (verdict_text line.0) };

    fn fmt<W: fmt::Write>(&self, f: &mut fmt::Formatter<W>) -> fmt::Result {
        match self.0 {
            Verdict::InTime => f.write_str("yes\n"),
            Verdict::TurnedAway(_) => f.write_str("no 1: no plan\n"),
            Verdict::Slow { burst, latency } => write!(
                f,
                "no 2: {burst} at once, and {latency} are needed: an answer takes {latency} ticks\n"
            ),
            Verdict::Cramped {
                capacity,
                needed,
                burst,
                latency,
            } => write!(
                f,
                "no 3: room for {capacity} dots, and {needed} are needed: {burst} at once and {latency} ticks\n"
            ),
            Verdict::Sudden { vblank, latency } => write!(
                f,
                "no 4: {vblank} ticks before the picture, and {latency} are needed: an answer takes {latency} ticks\n"
            ),
        }
    }
}

// What the panel gets, in words.
#[derive(Clone, Copy)]
struct Shown(Pixel);

impl fmt::Display for Shown {
    ghost output = { λ shown. Some (pixel_text shown.0) };

    fn fmt<W: fmt::Write>(&self, f: &mut fmt::Formatter<W>) -> fmt::Result {
        match self.0 {
            Pixel::Dot(dot) => write!(f, "dot {dot}"),
            Pixel::Dark => f.write_str("dark"),
            Pixel::Missing => f.write_str("missing"),
        }
    }
}

// Dots as a line, with one space between each two.
#[derive(Clone, Copy)]
struct DotsLine<'a>(&'a [u16]);

impl<'a> fmt::Display for DotsLine<'a> {
    ghost output = { λ line. Some (numbers_text line.0.now) };

    fn fmt<W: fmt::Write>(&self, f: &mut fmt::Formatter<W>) -> fmt::Result {
        match self.0 {
            [] => f.write_str("none\n"),
            [first, rest @ ..] => write!(f, "{first}{}\n", Row(rest)),
        }
    }
}

impl fmt::Display for Reply {
    ghost output = { λ reply. Some (reply_text reply) };

    fn fmt<W: fmt::Write>(&self, f: &mut fmt::Formatter<W>) -> fmt::Result {
        match self {
            Reply::Help => f.write_str(help()),
            Reply::NoPlan => f.write_str("no plan yet\n"),
            Reply::Plan { ticks, dots } => write!(f, "kept: {ticks} ticks, {dots} dots\n"),
            Reply::Kept => f.write_str("kept\n"),
            Reply::Verdict(verdict) => VerdictLine(*verdict).fmt(f),
            Reply::Tick(Some(tick)) => write!(f, "tick {tick}\n"),
            Reply::Dot(Some(Dot { x, y })) => write!(f, "dot {x} of line {y}\n"),
            Reply::Tick(None) | Reply::Dot(None) => f.write_str("none\n"),
            Reply::State([tick, requested, arrived, pending, waited, underrun]) => write!(
                f,
                "{tick} {requested} {arrived} {pending} {waited} {underrun}\n"
            ),
            Reply::Gives(Exchange { pixel, requested }) => {
                write!(f, "{}, {requested} asked for\n", Shown(*pixel))
            }
            Reply::Next(dots) => DotsLine(dots).fmt(f),
            Reply::Missing(Some(tick)) => write!(f, "missing in tick {tick}\n"),
            Reply::Missing(None) => f.write_str("none missing\n"),
            Reply::Refused(turned) => write!(f, "{turned}\n"),
        }
    }
}
