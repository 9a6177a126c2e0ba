// A tick as it is seen from outside, at its end.
#[derive(Clone, Copy, Debug, PartialEq, Eq)]
pub struct Sample {
    pub tick: u32,
    // the dot of the frame that the panel takes in this tick, if any, and whether it is missing; two fields and no enum, since a trace has a wire for each
    pub dot: Option<u32>,
    pub missing: bool,
    pub requested: u32,
    pub arrived: u32,
    pub pending: bool,
    // dots that have arrived and are not taken
    pub fill: u32,
}
