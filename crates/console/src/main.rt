// Reads commands, a line each, from a file, from its arguments or from standard input, and answers each.
#![tactic(auto)]

mod charts;
mod frames;
mod lines;
mod meters;
mod traces;

use anyhow::Context;
use fifo::{ByList, Latest};
use session::{Answer, Reply, Session};
use std::fs::File;
use std::io::{BufRead, BufReader, IsTerminal, Read};
use std::process::ExitCode;
use std::{env, io};

// A session on standard output.
#[derive(Drop)]
struct Console<'a> {
    rt: &'a HostRuntime,
    session: Session,
    // that of failure once a line is turned away
    status: ExitCode,
}

impl<'a> Console<'a> {
    fn new(rt: &'a HostRuntime) -> Console<'a> {
        Console {
            rt,
            session: Session::new(),
            status: ExitCode::SUCCESS,
        }
    }

    fn say(&mut self, reply: Reply) -> io::Result<()> {
        if matches!(&reply, Reply::Refused(_)) {
            self.status = ExitCode::FAILURE;
        }
        self.rt.print(reply)
    }

    // A line: a reply, or a frame where there is a plan to play.
    fn answer(&mut self, line: &[u8]) -> anyhow::Result<()> {
        let rt = self.rt;
        match (self.session.answer(rt.alloc(), line)?, self.session.bench()) {
            (Answer::Say(reply), _) => {
                self.say(reply)?;
                Ok(())
            }
            (Answer::RunLatest, Some(bench)) => frames::run(rt, bench, Latest),
            (Answer::RunBy(willing), Some(bench)) => frames::run(rt, bench, ByList(&willing)),
            (Answer::Chart, Some(bench)) => frames::chart(rt, bench.plan),
            (Answer::Trace, Some(bench)) => frames::trace(rt, bench.plan),
            (Answer::Silence, _) | (_, None) => Ok(()),
        }
    }

    // Every line of an input, with what asks for it before each.
    fn converse<R: Read + Drop>(&mut self, input: R, prompt: &str) -> anyhow::Result<()> {
        let lines = BufReader::new(self.rt.alloc(), input)?.split(self.rt.alloc(), b'\n');
        self.rt.print(prompt)?;
        for line in lines {
            self.answer(line?.as_slice())?;
            self.rt.print(prompt)?;
        }
        Ok(())
    }

    // Commands that are parted by semicolons, with a space behind or not.
    fn perform(&mut self, commands: &str) -> anyhow::Result<()> {
        for command in commands.split(';') {
            self.answer(command.trim_start().as_bytes())?;
        }
        Ok(())
    }
}

fn run(rt: &HostRuntime) -> anyhow::Result<ExitCode> {
    let mut console = Console::new(rt);
    let mut args = env::args(rt)?;
    let _name = args.next();
    match args.next() {
        Some(option) if option.as_str() == "-c" => {
            let commands = args.next().context("-c wants the commands behind it")?;
            console.perform(commands.as_str())?;
        }
        Some(path) => console.converse(File::open(rt, path.as_str())?, "")?,
        None => {
            let asks = rt.stdin().is_terminal() && rt.stdout().is_terminal();
            console.converse(rt.stdin(), if asks { "> " } else { "" })?;
        }
    }
    Ok(console.status)
}

// Ends with status 1 where a line was turned away, or where the input or the output failed.
fn main(rt: HostRuntime) -> anyhow::Result<ExitCode> {
    run(&rt)
}
