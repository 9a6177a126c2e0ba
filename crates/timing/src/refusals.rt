// Why a row of numbers is no plan.
ghost use Rattle.std.specs.Prelude.{◌≡◌};
ghost use Rattle.timing.specs.Row.{place_of, number_of};

#[derive(Clone, Copy, Debug, PartialEq, Eq)]
pub enum PlanRefusal {
    // fewer than seven numbers: the first place that is lacking
    TooShort { place: usize },
    // more than seven numbers
    TooLong,
    // a number outside its range, the first from the left
    OutOfRange { place: usize, least: u32, most: u32 },
}

impl PlanRefusal {
    // The number by which the refusal is known outside, where numbers for refusals are a rule of the interface.
    pub fn number(&self) -> u64
        ensures { result ≡ number_of self.now }
    {
        1
    }

    // The place in the row, from 0, of what is wrong.
    pub fn place(&self) -> usize
        ensures { result ≡ place_of self.now }
    {
        match self {
            PlanRefusal::TooShort { place } | PlanRefusal::OutOfRange { place, .. } => *place,
            PlanRefusal::TooLong => 7,
        }
    }
}
