// A feeder on which the latest memory is tried out, which is in its type.
ghost use Rattle.std.specs.Prelude.{◌≡◌};
ghost use Rattle.scope.specs.Late.{late};

use feeder::Feeder;

mod probing;

#[derive(Clone, Copy, Debug, PartialEq, Eq)]
pub struct Probe {
    feeder: Feeder,
    ghost latest: { feeder.counts.progress ≡ late feeder.counts },
}
