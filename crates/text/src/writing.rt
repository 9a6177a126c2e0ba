// A row of numbers, and a command, as text.
ghost use Rattle.std.specs.Prelude.{◌≡◌, ℕ, Some};
ghost use Rattle.text.specs.Rows.{row_text, row_text_by};
ghost use Rattle.text.specs.Said.{said, keyword, numbers, written, flag};

use crate::commands::Command;
use crate::keys::Key;
use std::fmt;
use timing::Dot;

// What stands in a row as one number. Not `Into<u32>`, whose law is a relation: a row's text is a function of its numbers.
pub trait AsNumber: Copy {
    ghost number: { Self → ℕ };

    fn as_number(self) -> u32
        ensures { result ≡ number self };
}

impl AsNumber for u32 {
    ghost number = { λ n. n };

    fn as_number(self) -> u32 {
        self
    }
}

impl AsNumber for u16 {
    ghost number = { λ n. n };

    fn as_number(self) -> u32 {
        u32::from(self)
    }
}

// 1 where it is set, and else 0.
impl AsNumber for bool {
    ghost number = { flag };

    fn as_number(self) -> u32 {
        u32::from(self)
    }
}

// Each number behind one space.
#[derive(Clone, Copy, Debug)]
pub struct Row<'a, T>(pub &'a [T]);

impl<'a, T: AsNumber> fmt::Display for Row<'a, T> {
    ghost output = { λ row. Some (row_text_by T.number row.0.now) };

    fn fmt<W: fmt::Write>(&self, f: &mut fmt::Formatter<W>) -> fmt::Result {
        for item in self.0 {
            write!(f, " {}", item.as_number())?;
        }
        Ok(())
    }
}

// The numbers behind a command's keyword.
#[derive(Clone, Copy)]
struct Numbers<'a>(&'a Command);

impl<'a> fmt::Display for Numbers<'a> {
    ghost output = { λ row. Some (row_text (numbers (said row.0.now))) };

    fn fmt<W: fmt::Write>(&self, f: &mut fmt::Formatter<W>) -> fmt::Result {
        match self.0 {
            Command::Plan(row)
            | Command::Dots(row)
            | Command::Ring(row)
            | Command::Tick(row)
            | Command::SetState(row) => Row(row).fmt(f),
            Command::RunBy(willing) => Row(willing).fmt(f),
            Command::When(Dot { x, y }) => Row(&[*x, *y]).fmt(f),
            Command::At(tick) => Row(&[*tick]).fmt(f),
            Command::InTime
            | Command::RunLatest
            | Command::ChartLatest
            | Command::TraceLatest
            | Command::State
            | Command::Next
            | Command::Help
            | Command::Nothing => Ok(()),
        }
    }
}

impl fmt::Display for Command {
    ghost output = { λ command. Some (written (said command)) };

    fn fmt<W: fmt::Write>(&self, f: &mut fmt::Formatter<W>) -> fmt::Result {
        write!(f, "{}{}", first_words(self), Numbers(self))
    }
}

fn first_words(command: &Command) -> &'static str
    ensures { result.now ≡ keyword (said command.now) }
{
    match command {
        Command::Plan(_) => Key::Plan.text(),
        Command::InTime => Key::InTime.text(),
        Command::RunLatest => Key::RunLatest.text(),
        Command::RunBy(_) => Key::RunBy.text(),
        Command::ChartLatest => Key::ChartLatest.text(),
        Command::TraceLatest => Key::TraceLatest.text(),
        Command::When(_) => Key::When.text(),
        Command::At(_) => Key::At.text(),
        Command::Dots(_) => Key::Dots.text(),
        Command::Ring(_) => Key::Ring.text(),
        Command::Tick(_) => Key::Tick.text(),
        Command::State | Command::SetState(_) => Key::State.text(),
        Command::Next => Key::Next.text(),
        Command::Help => Key::Help.text(),
        Command::Nothing => "",
    }
}
