// A feeder that a frame reaches from its start by some way of answering, which is in its type.
ghost use Rattle.feeder.specs.Panel.{Reached};

use super::counts::Counts;

mod feeding;

#[derive(Clone, Copy, Debug, PartialEq, Eq)]
pub struct Feeder {
    counts: Counts,
    ghost reached: { Reached counts.scan.plan.numbers counts.scan.at.tick counts.progress },
}
