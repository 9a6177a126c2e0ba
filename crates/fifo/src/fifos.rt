// A feeder with the places of its ring: where the next dot is taken from, and where the next one that arrives goes.
ghost use Rattle.std.specs.Prelude.{◌≡◌, ◌%◌};
ghost use Rattle.timing.specs.Frame.{taken};
ghost use Rattle.feeder.specs.Step.{plan_in, tick_in};

use feeder::Feeder;

mod plays;

#[derive(Clone, Copy, Debug, PartialEq, Eq)]
pub struct Fifo {
    feeder: Feeder,
    head: usize,
    tail: usize,
    ghost headed: { head ≡ taken (plan_in feeder.counts) (tick_in feeder.counts) % (plan_in feeder.counts).capacity },
    ghost tailed: { tail ≡ feeder.counts.progress.arrived % (plan_in feeder.counts).capacity },
}
