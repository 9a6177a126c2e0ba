// The panel's way through a frame, tick by tick, with no division: which dot comes next, and when.
ghost use Rattle.std.specs.Prelude.{◌≡◌, ◌+◌, ◌<◌, min, MatchOption, nat_le};
ghost use Rattle.timing.specs.Frame.{frame_ticks, takes, taken};
ghost use Rattle.timing.specs.Scan.{Tracks};

use super::dots::Dot;
use super::plans::Plan;
use super::positions::Position;

#[derive(Clone, Copy, Debug, PartialEq, Eq)]
pub struct Scan {
    plan: Plan,
    end: u32,
    at: Position,
    ghost ends: { end ≡ frame_ticks plan.numbers },
    ghost tracks: { Tracks plan.numbers at },
}

impl Scan {
    // At a frame's first tick.
    pub fn start(plan: Plan) -> Scan
        ensures plan { result.plan ≡ plan }
        ensures tick { result.at.tick ≡ 0 }
    {
        Scan {
            plan,
            end: plan.frame_ticks(),
            at: Position::before(&plan, 0),
        }
    }

    // At any tick of a frame, or at its end; none past that.
    pub fn resume(plan: Plan, tick: u32) -> Option<Scan>
        ensures { MatchOption result (frame_ticks plan.numbers < tick) (λ scan. (scan.plan ≡ plan) × (scan.at.tick ≡ tick)) }
    {
        let end = plan.frame_ticks();
        if tick > end {
            return None;
        }
        Some(Scan {
            plan,
            end,
            at: Position::before(&plan, tick),
        })
    }

    pub fn plan(&self) -> Plan
        ensures { result ≡ self.now.plan }
    {
        self.plan
    }

    // The tick that comes next.
    pub fn tick(&self) -> u32
        ensures { result ≡ self.now.at.tick }
    {
        self.at.tick
    }

    // How many dots of the frame were taken before that tick.
    pub fn taken(&self) -> u32
        ensures { result ≡ taken self.now.plan.numbers self.now.at.tick }
    {
        self.at.count
    }

    // Whether the frame's ticks are over.
    pub fn is_over(&self) -> bool
        ensures { result ≡ nat_le (frame_ticks self.now.plan.numbers) self.now.at.tick }
    {
        self.at.tick >= self.end
    }

    // Whether the panel takes a dot in that tick.
    pub fn takes(&self) -> bool
        ensures { result ≡ takes self.now.plan.numbers self.now.at.tick }
    {
        self.at.tick < self.end && self.at.tick == self.at.due
    }

    // The position one tick on.
    fn following(&self) -> Position
        requires { self.now.at.tick < frame_ticks self.now.plan.numbers }
        ensures tracks { Tracks self.now.plan.numbers result }
        ensures tick { result.tick ≡ self.now.at.tick + 1 }
    {
        let at = self.at;
        let tick = at.tick + 1;
        if at.tick != at.due {
            return Position { tick, ..at };
        }
        let numbers = self.plan.numbers();
        let Dot { x, y } = at.next;
        let count = at.count + 1;
        let due = at.due + 1;
        if x + 1 == numbers.width {
            return Position {
                tick,
                count,
                next: Dot { x: 0, y: y + 1 },
                due: due + numbers.hblank,
            };
        }
        Position {
            tick,
            count,
            next: Dot { x: x + 1, y },
            due,
        }
    }

    // Goes through one tick; at the frame's end nothing changes.
    pub fn advance(&mut self)
        ensures plan { self.new.plan ≡ self.old.plan }
        ensures tick { self.new.at.tick ≡ min (self.old.at.tick + 1) (frame_ticks self.old.plan.numbers) }
    {
        if self.at.tick < self.end {
            self.at = self.following();
        }
    }
}
