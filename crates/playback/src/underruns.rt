// The first dot that was missing.
#[derive(Clone, Copy, Debug, PartialEq, Eq)]
pub struct Underrun {
    // frames count from 0, and so do the ticks of a frame
    pub frame: u32,
    pub tick: u32,
}
