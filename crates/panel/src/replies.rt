// What is said to each line.
use feeder::{first_underrun, first_underrun_latest};
use session::{Reply, Turned, Why};
use std::alloc::{AllocError, Global};
use std::fmt;
use std::str::from_utf8;
use text::Command;
use timing::Plan;

// Fewer commands than a session's, so another text.
const HELP: &str =
    "plan W H L P R B T   keep a plan: dots in a line, lines, ticks before a line and before the picture, room, at once, latest
when X Y             the tick in which dot X of line Y is taken
at T                 the dot that is taken in tick T
run latest           a picture, by a memory that always takes as long as it may
run by 1 0 0 1       a picture, by a memory that is willing in the ticks marked 1, and answers when it must
help                 this list
";

#[derive(Debug, Drop)]
pub enum Answer {
    // the line asks nothing
    Silence,
    // the commands of this program, which are fewer than a session's
    Help,
    Say(Reply),
}

impl fmt::Display for Answer {
    fn fmt<W: fmt::Write>(&self, f: &mut fmt::Formatter<W>) -> fmt::Result {
        match self {
            Answer::Silence => Ok(()),
            Answer::Help => f.write_str(HELP),
            Answer::Say(reply) => reply.fmt(f),
        }
    }
}

fn keep(kept: &mut Option<Plan>, row: &[u32]) -> Reply {
    match Plan::new(row) {
        Ok(plan) => {
            *kept = Some(plan);
            Reply::from(plan)
        }
        Err(refusal) => Reply::Refused(Turned::plan(row, refusal)),
    }
}

// None where the command is a session's, and not this program's.
fn respond(kept: &mut Option<Plan>, command: Command) -> Option<Answer> {
    let reply = match (command, *kept) {
        (Command::Nothing, _) => return Some(Answer::Silence),
        (Command::Help, _) => return Some(Answer::Help),
        (Command::Plan(row), _) => keep(kept, row.as_slice()),
        (Command::When(dot), Some(plan)) => Reply::Tick(plan.tick_of(dot)),
        (Command::At(tick), Some(plan)) => Reply::Dot(plan.dot_at(tick)),
        (Command::RunLatest, Some(plan)) => Reply::Missing(first_underrun_latest(plan)),
        (Command::RunBy(willing), Some(plan)) => Reply::Missing(first_underrun(
            plan,
            willing.as_slice(),
        )),
        (Command::When(_) | Command::At(_) | Command::RunLatest | Command::RunBy(_), None) => {
            Reply::NoPlan
        }
        _ => return None,
    };
    Some(Answer::Say(reply))
}

// The line's number counts from 0.
pub fn reply(
    heap: Global,
    kept: &mut Option<Plan>,
    number: usize,
    line: &[u8],
) -> Result<Answer, AllocError> {
    let command = if from_utf8(line).is_ok() {
        Command::read(heap, line)?
    } else {
        // also where it is a remark
        None
    };
    let unreadable = Answer::Say(Reply::Refused(Turned::text(number, Why::NoCommand)));
    Ok(
        command
            .and_then(|command| respond(kept, command))
            .unwrap_or(unreadable),
    )
}
