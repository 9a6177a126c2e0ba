// A plan that is good, by its type: made from a row of numbers, and asked which dot is taken in which tick.
ghost use Rattle.std.specs.Prelude.{◌≡◌, ◌<◌, true, false, length, MatchOption, MatchResult};
ghost use Rattle.timing.specs.Frame.{line_ticks, frame_ticks, frame_dots, takes, taken, Curve, InFrame, tick_of, TakenIn};
ghost use Rattle.timing.specs.Good.{good};
ghost use Rattle.timing.specs.Row.{numbers_in, Refuses};

use super::dots::Dot;
use super::numbers::Numbers;
use super::refusals::PlanRefusal;

#[derive(Clone, Copy, Debug, PartialEq, Eq)]
pub struct Plan {
    numbers: Numbers,
    ghost ok: { good numbers ≡ true },
}

impl Plan {
    pub const MAX_WIDTH: u32 = 4_096;

    pub const MAX_HEIGHT: u32 = 4_096;

    pub const MAX_HBLANK: u32 = 4_096;

    pub const MAX_VBLANK: u32 = 65_536;

    pub const MAX_CAPACITY: u32 = 65_536;

    pub const MAX_LATENCY: u32 = 65_536;

    // From width, height, hblank, vblank, capacity, burst and latency, in this order.
    pub fn new(row: &[u32]) -> Result<Plan, PlanRefusal>
        ensures { MatchResult result (λ plan. (length row.now ≡ 7) × (plan.numbers ≡ numbers_in row.now)) (Refuses row.now) }
    {
        if row.len() > 7 {
            return Err(PlanRefusal::TooLong);
        }
        let Some(row) = row.as_array::<7>() else {
            return Err(PlanRefusal::TooShort { place: row.len() });
        };
        let numbers = Numbers::from(*row);
        let limits = [
            (numbers.width, 1, Plan::MAX_WIDTH),
            (numbers.height, 1, Plan::MAX_HEIGHT),
            (numbers.hblank, 0, Plan::MAX_HBLANK),
            (numbers.vblank, 0, Plan::MAX_VBLANK),
            (numbers.capacity, 0, Plan::MAX_CAPACITY),
            (numbers.burst, 1, numbers.capacity),
            (numbers.latency, 1, Plan::MAX_LATENCY),
        ];
        for (place, &(number, least, most)) in limits.iter().enumerate() {
            if number < least || number > most {
                return Err(PlanRefusal::OutOfRange { place, least, most });
            }
        }
        Ok(Plan { numbers })
    }

    pub fn numbers(&self) -> Numbers
        ensures { result ≡ self.now.numbers }
    {
        self.numbers
    }

    // The ticks of a line: its blanking, then one for each dot.
    pub fn line_ticks(&self) -> u32
        ensures value { result ≡ line_ticks self.now.numbers }
        ensures some { 0 < result }
    {
        self.numbers.hblank + self.numbers.width
    }

    // The ticks of a frame: its blanking, then its lines.
    pub fn frame_ticks(&self) -> u32
        ensures { result ≡ frame_ticks self.now.numbers }
    {
        self.numbers.vblank + self.numbers.height * self.line_ticks()
    }

    // The dots of a frame, which are those taken in all its ticks.
    pub fn frame_dots(&self) -> u32
        ensures value { result ≡ frame_dots self.now.numbers }
        ensures all { taken self.now.numbers (frame_ticks self.now.numbers) ≡ result }
    {
        self.numbers.width * self.numbers.height
    }

    // Whether the panel takes a dot in this tick.
    pub fn takes(&self, tick: u32) -> bool
        ensures { result ≡ takes self.now.numbers tick }
    {
        let Numbers { hblank, vblank, .. } = self.numbers;
        (vblank..self.frame_ticks()).contains(&tick)
            && (tick - vblank) % self.line_ticks() >= hblank
    }

    // How many dots of the frame were taken before this tick.
    pub fn taken(&self, tick: u32) -> u32
        ensures value { result ≡ taken self.now.numbers tick }
        ensures curve { Curve self.now.numbers }
    {
        let Numbers {
            width,
            height,
            hblank,
            vblank,
            ..
        } = self.numbers;
        let line = self.line_ticks();
        let gone = tick.saturating_sub(vblank).min(height * line);
        gone / line * width + (gone % line).saturating_sub(hblank)
    }

    // The dot that is taken in this tick.
    pub fn dot_at(&self, tick: u32) -> Option<Dot>
        ensures { MatchOption result (takes self.now.numbers tick ≡ false) (λ dot. TakenIn self.now.numbers dot tick) }
    {
        if !self.takes(tick) {
            return None;
        }
        let gone = tick - self.numbers.vblank;
        let line = self.line_ticks();
        Some(Dot {
            x: gone % line - self.numbers.hblank,
            y: gone / line,
        })
    }

    // The tick in which a dot is taken; none outside the frame.
    pub fn tick_of(&self, dot: Dot) -> Option<u32>
        ensures { MatchOption result (InFrame self.now.numbers dot → ⊥) (λ tick. TakenIn self.now.numbers dot tick) }
    {
        if dot.x >= self.numbers.width || dot.y >= self.numbers.height {
            return None;
        }
        Some(self.due(dot))
    }

    // The same for the dot behind a frame's last too, whose tick is past the frame.
    #[tactic(auto, unfolding(crate::specs::Frame::tick_of))]
    pub(crate) fn due(&self, dot: Dot) -> u32
        requires { tick_of self.now.numbers dot < 4294967296 }
        ensures { result ≡ tick_of self.now.numbers dot }
    {
        let Numbers { hblank, vblank, .. } = self.numbers;
        vblank + dot.y * self.line_ticks() + hblank + dot.x
    }
}
