// A frame as a VCD file, the waveform format of hardware tools: a tick is two units of time, the clock high and then low.
use scope::Sample;
use std::io::Write;
use std::{fmt, io};

const HEADER: &str = "$timescale 1 ns $end
$scope module panel $end
$var wire 1 ! clock $end
$var wire 1 t takes $end
$var wire 24 d dot $end
$var wire 25 r requested $end
$var wire 25 a arrived $end
$var wire 1 p pending $end
$var wire 17 f fill $end
$var wire 1 m missing $end
$upscope $end
$enddefinitions $end
";

// A variable with what it holds.
#[derive(Clone, Copy, Debug, PartialEq, Eq)]
enum Variable {
    Wire(char, bool),
    Number(char, u32),
}

impl fmt::Display for Variable {
    fn fmt<W: fmt::Write>(&self, f: &mut fmt::Formatter<W>) -> fmt::Result {
        match *self {
            Variable::Wire(name, on) => {
                let bit = u32::from(on);
                write!(f, "{bit}{name}")
            }
            Variable::Number(name, n) => write!(f, "b{n:b} {name}"),
        }
    }
}

// Where no dot is taken, none is told.
fn variables(sample: &Sample) -> [Option<Variable>; 7] {
    [
        Some(Variable::Wire('t', sample.dot.is_some())),
        sample.dot.map(|dot| Variable::Number('d', dot)),
        Some(Variable::Number('r', sample.requested)),
        Some(Variable::Number('a', sample.arrived)),
        Some(Variable::Wire('p', sample.pending)),
        Some(Variable::Number('f', sample.fill)),
        Some(Variable::Wire('m', sample.missing)),
    ]
}

#[derive(Drop)]
pub struct Trace<W: Write + Drop> {
    out: W,
    // those of the tick before, since only what changes is written
    last: [Option<Variable>; 7],
}

impl<W: Write + Drop> Trace<W> {
    pub fn start(mut out: W) -> io::Result<Trace<W>> {
        out.write_all(HEADER.as_bytes())?;
        Ok(Trace {
            out,
            last: [None; 7],
        })
    }

    // A tick: the clock's rise with what has changed, and its fall.
    pub fn write(&mut self, sample: Sample) -> io::Result<()> {
        let rise = 2 * u64::from(sample.tick);
        write!(self.out, "#{rise}\n1!\n")?;
        let now = variables(&sample);
        for (variable, before) in now.iter().zip(self.last.iter()) {
            if variable != before
                && let Some(variable) = variable
            {
                write!(self.out, "{variable}\n")?;
            }
        }
        self.last = now;
        let fall = rise + 1;
        write!(self.out, "#{fall}\n0!\n")
    }

    pub fn finish(self) -> io::Result<()> {
        let Trace { mut out, .. } = self;
        out.flush()
    }
}
