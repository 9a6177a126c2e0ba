// Reads commands, a line each, from a file or from standard input, and prints an answer to each.
#![tactic(auto)]

mod replies;

use std::alloc::Global;
use std::fs::File;
use std::io::{BufRead, BufReader, Read};
use std::{env, io};

fn session<R: Read + Drop>(rt: &HostRuntime, input: R) -> anyhow::Result<()> {
    let mut plan = None;
    let lines = BufReader::new(rt.alloc(), input)?.split(rt.alloc(), b'\n');
    for (number, line) in lines.enumerate() {
        let line = line?;
        let reply = replies::reply(rt.alloc(), &mut plan, number, line.as_slice())?;
        rt.print(reply)?;
    }
    Ok(())
}

fn run(rt: &HostRuntime) -> anyhow::Result<()> {
    let mut args = env::args(rt)?;
    let _name = args.next();
    match args.next() {
        Some(path) => session(rt, File::open(rt, path.as_str())?),
        None => session(rt, rt.stdin()),
    }
}

fn main(rt: HostRuntime) -> anyhow::Result<()> {
    run(&rt)
}
