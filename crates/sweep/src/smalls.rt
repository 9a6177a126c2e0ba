// Every plan of a small size.
ghost use Rattle.std.specs.Prelude.{◌≡◌};
ghost use Rattle.sweep.specs.Trial.{small_row};

use super::sweeps::{Swept, try_rows};
use super::trials::try_ways;

// How many rows there are: six widths, two heights, with and without hblank, six vblanks, six capacities, six bursts and five latencies. No frame of theirs has more than 19 ticks.
const ROWS: u32 = 25_920;

fn row_at(index: u32) -> [u32; 7]
    ensures { result ≡ small_row index }
{
    // the digits of the number: seven ranges, one inside the other, would be no plainer
    [
        index % 6 + 1,
        index / 6 % 2 + 1,
        index / 12 % 2,
        index / 24 % 6,
        index / 144 % 6 + 1,
        index / 864 % 6 + 1,
        index / 5184 % 5 + 1,
    ]
}

// By every way of answering.
pub fn sweep() -> Swept
    ensures { result.disagreements ≡ 0 }
{
    try_rows(ROWS, row_at, try_ways)
}
