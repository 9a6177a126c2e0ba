// Lines that are just long enough for the rule to be exact, by the latest memory.
ghost use Rattle.std.specs.Prelude.{◌≡◌};
ghost use Rattle.sweep.specs.Trial.{long_row};

use super::sweeps::{Swept, try_rows};
use super::trials::try_latest;

// Twenty-one vblanks, twenty capacities, bursts and latencies.
const ROWS: u32 = 168_000;

fn row_at(index: u32) -> [u32; 7]
    ensures { result ≡ long_row index }
{
    // the digits of the number: four ranges, one inside the other, would be no plainer
    let vblank = index % 21;
    let capacity = index / 21 % 20 + 1;
    let burst = index / 420 % 20 + 1;
    let latency = index / 8400 % 20 + 1;
    [
        (capacity + burst) * latency,
        1,
        0,
        vblank,
        capacity,
        burst,
        latency,
    ]
}

// By the latest memory alone.
pub fn sweep() -> Swept
    ensures { result.disagreements ≡ 0 }
{
    try_rows(ROWS, row_at, try_latest)
}
