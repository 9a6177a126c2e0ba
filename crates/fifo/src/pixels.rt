// What a tick gives.
ghost use Rattle.std.specs.Prelude.{◌≡◌};
ghost use Rattle.fifo.specs.Gives.{exchange_of, is_missing};

use feeder::Outcome;

// What the panel gets in a tick.
#[derive(Clone, Copy, Debug, PartialEq, Eq)]
pub enum Pixel {
    Dot(u16),
    // it takes none
    Dark,
    // the dot that it takes has not arrived
    Missing,
}

impl Pixel {
    pub fn is_missing(&self) -> bool
        ensures { result ≡ is_missing self.now }
    {
        matches!(self, Pixel::Missing)
    }
}

// A tick's two sides: what the panel gets, and how many dots are requested of the memory.
#[derive(Clone, Copy, Debug, PartialEq, Eq)]
pub struct Exchange {
    pub pixel: Pixel,
    pub requested: u32,
}

impl Exchange {
    // Of a feeder's outcome, with the dot that stands at the place of the one taken; no `From` of a pair, which would name neither.
    pub fn of(outcome: Outcome, dot: u16) -> Exchange
        ensures { result ≡ exchange_of outcome dot }
    {
        let (pixel, requested) = match outcome {
            Outcome::Dot { requested } => (Pixel::Dot(dot), requested),
            Outcome::Dark { requested } => (Pixel::Dark, requested),
            Outcome::Missing { requested } => (Pixel::Missing, requested),
        };
        Exchange { pixel, requested }
    }
}
