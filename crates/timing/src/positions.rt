// Where the panel stands between two ticks of a frame.
ghost use Rattle.std.specs.Prelude.{◌≡◌, ◌≤◌};
ghost use Rattle.timing.specs.Frame.{frame_ticks};
ghost use Rattle.timing.specs.Scan.{Tracks};

use super::dots::Dot;
use super::plans::Plan;

#[derive(Clone, Copy, Debug, PartialEq, Eq)]
pub struct Position {
    // the tick that comes next
    pub tick: u32,
    // dots taken before it
    pub count: u32,
    // the dot that is taken next
    pub next: Dot,
    // the tick in which it is taken; behind the last dot, one past the frame
    pub due: u32,
}

impl Position {
    // Before a tick of a frame, or at its end.
    pub(crate) fn before(plan: &Plan, tick: u32) -> Position
        requires { tick ≤ frame_ticks plan.now.numbers }
        ensures tracks { Tracks plan.now.numbers result }
        ensures tick { result.tick ≡ tick }
    {
        let count = plan.taken(tick);
        let width = plan.numbers().width;
        let next = Dot {
            x: count % width,
            y: count / width,
        };
        Position {
            tick,
            count,
            next,
            due: plan.due(next),
        }
    }
}
