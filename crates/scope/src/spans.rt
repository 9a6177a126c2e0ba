// The least and the most that the FIFO holds at the ends of some ticks.
#[derive(Clone, Copy, Debug, Default, PartialEq, Eq)]
pub struct Span {
    pub least: u32,
    pub most: u32,
}
