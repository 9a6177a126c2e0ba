// How far a long frame has come, on standard error where that is a terminal.
use std::io::{IsTerminal, Write};
use timing::Plan;

// Frames of fewer ticks are over too soon to tell.
const LONG: u32 = 1 << 22;

#[derive(Drop)]
pub struct Meter<E: Write + IsTerminal + Drop> {
    // none where nobody looks, or the frame is short
    out: Option<E>,
    // lines of the frame, and those that are done
    lines: u32,
    done: u32,
}

impl<E: Write + IsTerminal + Drop> Meter<E> {
    pub fn new(err: E, plan: &Plan) -> Meter<E> {
        let seen = plan.frame_ticks() >= LONG && err.is_terminal();
        Meter {
            out: seen.then_some(err),
            lines: plan.numbers().height,
            done: 0,
        }
    }

    // One line more; one in 64 is told. A report that can't be written is left out.
    pub fn line(&mut self) {
        self.done = self.done.saturating_add(1);
        if self.done.is_multiple_of(64) {
            self.report();
        }
    }

    fn report(&mut self) {
        let percent = u64::from(self.done) * 100 / u64::from(self.lines).max(1);
        if let Some(out) = &mut self.out {
            let _ = write!(out, "\r{percent}%");
        }
    }
}
