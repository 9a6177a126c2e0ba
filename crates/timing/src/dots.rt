// Dot x of line y of a frame, both from 0.
#[derive(Clone, Copy, Debug, PartialEq, Eq)]
pub struct Dot {
    pub x: u32,
    pub y: u32,
}
