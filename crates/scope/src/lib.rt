// What an oscilloscope on the feeder would show: a frame by the latest memory, tick by tick, and how full the FIFO is over it.
#![tactic(auto)]

mod charts;
mod probes;
mod samples;
mod spans;

pub use charts::Chart;
pub use probes::Probe;
pub use samples::Sample;
pub use spans::Span;
