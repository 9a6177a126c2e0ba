// A session: each line is read, and answered with a reply, or with what is to be played.
ghost use Rattle.std.specs.Prelude.{◌≡◌, ◌+◌, ◌-◌, ◌^◌, min, IfOk, None};
ghost use Rattle.std.specs.Option.{option_map};
ghost use Rattle.session.specs.declared.replies.Reply.TheVariants.{Refused};
ghost use Rattle.session.specs.declared.whys.Why.TheVariants.{NoCommand};
ghost use Rattle.text.specs.Said.{Said, Says};

use super::benches::Bench;
use super::failures::Failure;
use super::replies::Reply;
use super::turned::Turned;
use super::whys::Why;
use deadline::judge;
use std::alloc::{AllocError, Global};
use text::Command;
use timing::Plan;

// What is to be done about a line.
#[derive(Debug, PartialEq, Drop)]
pub enum Answer {
    // it asks nothing
    Silence,
    Say(Reply),
    // a frame is to be played: by the latest memory, or by one that is willing in the ticks that the flags say
    RunLatest,
    RunBy(Vec<bool>),
    Chart,
    Trace,
}

#[derive(Drop)]
pub struct Session {
    bench: Option<Bench>,
    // lines that were read
    lines: usize,
}

// A new plan, in place of what was there.
fn keep(heap: Global, bench: &mut Option<Bench>, row: &[u32]) -> Result<Reply, Failure> {
    let plan = Plan::new(row).map_err(|refusal| Turned::plan(row, refusal))?;
    *bench = Some(Bench::new(heap, plan)?);
    Ok(Reply::from(plan))
}

impl Session {
    pub fn new() -> Session
        ensures bench { result.bench ≡ None }
        ensures lines { result.lines ≡ 0 }
    {
        Session {
            bench: None,
            lines: 0,
        }
    }

    // What a frame is played by.
    pub fn bench(&self) -> Option<&Bench>
        ensures { option_map (λ x. x.now) result ≡ self.now.bench }
    {
        self.bench.as_ref()
    }

    // To a command: whether a frame is to be played, or what is said.
    fn respond(&mut self, heap: Global, command: Command) -> Result<Answer, Failure>
        ensures { self.new.lines ≡ self.old.lines }
    {
        let reply = match (command, &mut self.bench) {
            (Command::Nothing, _) => return Ok(Answer::Silence),
            (Command::Help, _) => Reply::Help,
            (Command::Plan(row), bench) => keep(heap, bench, &row)?,
            (_, None) => Reply::NoPlan,
            (Command::RunLatest, Some(_)) => return Ok(Answer::RunLatest),
            (Command::RunBy(willing), Some(_)) => return Ok(Answer::RunBy(willing)),
            (Command::ChartLatest, Some(_)) => return Ok(Answer::Chart),
            (Command::TraceLatest, Some(_)) => return Ok(Answer::Trace),
            (Command::InTime, Some(bench)) => Reply::Verdict(judge(&bench.plan)),
            (Command::When(dot), Some(bench)) => Reply::Tick(bench.plan.tick_of(dot)),
            (Command::At(tick), Some(bench)) => Reply::Dot(bench.plan.dot_at(tick)),
            (Command::Dots(row), Some(bench)) => bench.set_dots(heap, &row)?,
            (Command::State, Some(bench)) => Reply::State(bench.state),
            (Command::SetState(row), Some(bench)) => bench.set_state(&row)?,
            (Command::Ring(row), Some(bench)) => bench.set_ring(heap, &row)?,
            (Command::Tick(row), Some(bench)) => bench.tick(heap, &row)?,
            (Command::Next, Some(bench)) => bench.next(heap)?,
        };
        Ok(Answer::Say(reply))
    }

    // The next line of the session.
    pub fn answer(&mut self, heap: Global, line: &[u8]) -> Result<Answer, AllocError>
        ensures lines { self.new.lines ≡ min (self.old.lines + 1) (2 ^ 64 - 1) }
        ensures unreadable { IfOk result (λ a. ((s : Said) → Says line.now s → ⊥) → a ≡ Answer.Say (Refused (record { number = 6; place = self.old.lines; why = NoCommand }))) }
    {
        let number = self.lines;
        self.lines = number.saturating_add(1);
        let Some(command) = Command::read(heap, line)? else {
            return Failure::from(Why::NoCommand).answer(number);
        };
        self.respond(heap, command)
            .or_else(|failure| failure.answer(number))
    }
}
