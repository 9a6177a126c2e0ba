// A screen of text: a line of the frame to a line of text, with each missing dot marked in its place.
use super::meters::Meter;
use fifo::Pixel;
use itoa::write_digits;
use playback::Screen;
use std::io;
use std::io::{IsTerminal, Write};

#[derive(Drop)]
pub struct Lines<W: Write + Drop, E: Write + IsTerminal + Drop> {
    out: W,
    meter: Meter<E>,
    width: u32,
    // dots to come in this line
    left: u32,
    // the first write that failed; nothing is written after it
    failed: io::Result<()>,
}

impl<W: Write + Drop, E: Write + IsTerminal + Drop> Lines<W, E> {
    pub fn new(out: W, meter: Meter<E>, width: u32) -> Lines<W, E> {
        Lines {
            out,
            meter,
            width,
            left: width,
            failed: Ok(()),
        }
    }

    // What is left in the writer goes out.
    pub fn finish(self) -> io::Result<()> {
        let Lines {
            mut out,
            failed,
            ..
        } = self;
        failed?;
        out.flush()
    }
}

impl<W: Write + Drop, E: Write + IsTerminal + Drop> Screen for Lines<W, E> {
    // what a program writes no clause can say
    ghost accepts = { λ _ _ _. Unit {0} };

    fn show(&mut self, pixel: Pixel) {
        let last = self.left <= 1;
        // one write a dot, its digits with a space or the line's end behind them: by `write!` a frame takes 1.6 times as long
        let mut text = [if last { b'\n' } else { b' ' }; 6];
        let start = match pixel {
            Pixel::Dot(dot) => write_digits(u64::from(dot), &mut text, 5),
            Pixel::Missing => {
                text[4] = b'-';
                4
            }
            Pixel::Dark => return,
        };
        if self.failed.is_ok() {
            self.failed = self.out.write_all(&text[start..]);
        }
        self.left = if last { self.width } else { self.left - 1 };
        if last {
            self.meter.line();
        }
    }
}
