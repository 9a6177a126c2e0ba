// What a tick gives.
ghost use Rattle.std.specs.Prelude.{◌≡◌, if◌then◌else◌};
ghost use Rattle.feeder.specs.Model.{takes_dot, is_missing};
ghost use Rattle.feeder.specs.declared.outcomes.Outcome.TheVariants.{Dot, Dark, Missing};

// What the panel gets in a tick, and how many dots are requested in it.
#[derive(Clone, Copy, Debug, PartialEq, Eq)]
pub enum Outcome {
    // the dot that it takes has arrived
    Dot { requested: u32 },
    // it takes none
    Dark { requested: u32 },
    // the dot that it takes has not arrived: an underrun
    Missing { requested: u32 },
}

impl Outcome {
    // What the panel gets where it takes a dot, which is missing or not, or takes none.
    pub(crate) fn new(takes: bool, missing: bool, requested: u32) -> Outcome
        ensures { result ≡ (if takes then (if missing then Missing requested else Dot requested) else Dark requested) }
    {
        if !takes {
            Outcome::Dark { requested }
        } else if missing {
            Outcome::Missing { requested }
        } else {
            Outcome::Dot { requested }
        }
    }

    pub fn takes_dot(&self) -> bool
        ensures { result ≡ takes_dot self.now }
    {
        !matches!(self, Outcome::Dark { .. })
    }

    pub fn is_missing(&self) -> bool
        ensures { result ≡ is_missing self.now }
    {
        matches!(self, Outcome::Missing { .. })
    }
}
