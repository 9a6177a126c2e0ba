// The commands, and how a line is read as one.
ghost use Rattle.std.specs.Prelude.{◌≡◌, IfOk, string_bytes, Decides, ◌≢◌};
ghost use Rattle.text.specs.Keyed.{assembled, spoken, alone, when_of, at_of, IsRun};
ghost use Rattle.text.specs.declared.keys.Key.TheVariants.{RunBy};
ghost use Rattle.text.specs.Law.{IsRead, ReadsBack, Laws};
ghost use Rattle.text.specs.Said.{said, written, Remark, Fitting, Says};

use crate::flags::flags;
use crate::keys::Key;
use crate::rows::numbers;
use std::alloc::{AllocError, Global};
use timing::Dot;

#[derive(Debug, PartialEq, Drop)]
pub enum Command {
    // the numbers as they are written, however many
    Plan(Vec<u32>),
    InTime,
    RunLatest,
    // in which ticks from 0 the memory is willing
    RunBy(Vec<bool>),
    ChartLatest,
    TraceLatest,
    When(Dot),
    At(u32),
    // the frame's dots
    Dots(Vec<u32>),
    Ring(Vec<u32>),
    // what the memory brings in this tick
    Tick(Vec<u32>),
    State,
    SetState(Vec<u32>),
    Next,
    Help,
    // a line that asks nothing: empty, or a remark after '#'
    Nothing,
}

impl Command {
    // None where the line is no command, and an error only for want of memory.
    pub fn read(heap: Global, line: &[u8]) -> Result<Option<Command>, AllocError>
        ensures reads { IfOk result (λ command. IsRead line.now command) }
        ensures back { IfOk result (λ command. ReadsBack line.now command) }
        ensures laws { Laws }
    {
        if asks_nothing(line) {
            return Ok(Some(Command::Nothing));
        }
        let Some((key, tail)) = Key::split(line) else {
            return Ok(None);
        };
        if let Key::RunBy = key {
            return run_by(heap, tail);
        }
        let Some(row) = numbers(heap, tail)? else {
            return Ok(None);
        };
        Ok(with_numbers(key, row))
    }

    // The line that says it.
    pub fn write(&self, heap: Global) -> Result<String, AllocError>
        ensures bytes { IfOk result (λ line. string_bytes line ≡ written (said self.now)) }
        ensures says { IfOk result (λ line. Fitting (said self.now) → Says (string_bytes line) (said self.now)) }
        ensures laws { Laws }
    {
        format!(in heap; "{self}")
    }
}

// The line is empty, or a remark.
fn asks_nothing(line: &[u8]) -> bool
    ensures { Decides result (Remark line.now) }
{
    matches!(line, [] | [b'#', ..])
}

// A run has at least one flag.
fn run_by(heap: Global, text: &[u8]) -> Result<Option<Command>, AllocError>
    ensures { IfOk result (λ command. IsRun text.now command) }
{
    if text.is_empty() {
        return Ok(None);
    }
    Ok(flags(heap, text)?.map(Command::RunBy))
}

// The command of another key with numbers behind it, where it takes those.
fn with_numbers(key: Key, row: Vec<u32>) -> Option<Command>
    requires { key ≢ RunBy }
    ensures { spoken result ≡ assembled key row.items }
{
    match (key, row.as_slice()) {
        (Key::Plan, _) => Some(Command::Plan(row)),
        (Key::InTime, []) => Some(Command::InTime),
        (Key::RunLatest, []) => Some(Command::RunLatest),
        (Key::ChartLatest, []) => Some(Command::ChartLatest),
        (Key::TraceLatest, []) => Some(Command::TraceLatest),
        (Key::When, [x, y]) => Some(Command::When(Dot { x: *x, y: *y })),
        (Key::At, [tick]) => Some(Command::At(*tick)),
        (Key::Dots, _) => Some(Command::Dots(row)),
        (Key::Ring, _) => Some(Command::Ring(row)),
        (Key::Tick, _) => Some(Command::Tick(row)),
        (Key::State, []) => Some(Command::State),
        (Key::State, _) => Some(Command::SetState(row)),
        (Key::Next, []) => Some(Command::Next),
        (Key::Help, []) => Some(Command::Help),
        _ => None,
    }
}
