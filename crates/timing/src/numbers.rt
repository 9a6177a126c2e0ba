// The seven numbers of a plan, good or not: display timing, FIFO and memory together.
ghost use Rattle.std.specs.Prelude.{◌≡◌};
ghost use Rattle.timing.specs.Row.{numbers_in};

#[derive(Clone, Copy, Debug, PartialEq, Eq)]
pub struct Numbers {
    // dots in a line
    pub width: u32,
    // lines in a frame
    pub height: u32,
    // ticks before each line in which nothing is taken
    pub hblank: u32,
    // ticks before the first line of a frame in which nothing is taken
    pub vblank: u32,
    // places of the FIFO
    pub capacity: u32,
    // dots that one answer of the memory brings
    pub burst: u32,
    // ticks that an answer takes at most
    pub latency: u32,
}

// A row has them in the order of the fields.
impl From<Numbers> for [u32; 7] {
    ghost from_gives = { λ numbers row. numbers_in row ≡ numbers };

    #[tactic(auto, unfolding(crate::specs::Row::numbers_in))]
    fn from(numbers: Numbers) -> [u32; 7] {
        let Numbers {
            width,
            height,
            hblank,
            vblank,
            capacity,
            burst,
            latency,
        } = numbers;
        [width, height, hblank, vblank, capacity, burst, latency]
    }
}

impl From<[u32; 7]> for Numbers {
    ghost from_gives = { λ row numbers. numbers ≡ numbers_in row };

    #[tactic(auto, unfolding(crate::specs::Row::numbers_in))]
    fn from(row: [u32; 7]) -> Numbers {
        let [width, height, hblank, vblank, capacity, burst, latency] = row;
        Numbers {
            width,
            height,
            hblank,
            vblank,
            capacity,
            burst,
            latency,
        }
    }
}
