// A feeder's numbers that passed the checks against a good plan, whether or not a frame reaches them.
ghost use Rattle.std.specs.Prelude.{◌≡◌, true};
ghost use Rattle.timing.specs.Frame.{frame_dots};
ghost use Rattle.feeder.specs.Panel.{accepted};

use super::states::Progress;
use timing::Scan;

mod resumes;
mod steps;

#[derive(Clone, Copy, Debug, PartialEq, Eq)]
pub struct Counts {
    scan: Scan,
    // the dots of the frame
    total: u32,
    progress: Progress,
    ghost dots: { total ≡ frame_dots scan.plan.numbers },
    ghost ok: { accepted scan.plan.numbers scan.at.tick progress ≡ true },
}
