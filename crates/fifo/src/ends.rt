// Memories over a picture: one that always takes as long as it may, one that answers at once, and one that is willing by a list.
ghost use Rattle.std.specs.Prelude.{◌≡◌, ℕ, Bool, true, false};
ghost use Rattle.feeder.specs.Feed.{willing_in};
ghost use Rattle.fifo.specs.Script.{just};

use super::memories::Memory;
use super::pictures::Picture;
use feeder::is_willing;

// In which ticks of a frame a memory answers though it need not.
pub trait Willing {
    ghost willing: { Self → ℕ → Bool };

    fn is_willing(&self, tick: u32) -> bool
        ensures { result ≡ willing self.now tick };
}

// Always takes as long as it may.
#[derive(Clone, Copy, Debug, PartialEq, Eq)]
pub struct Latest;

impl Willing for Latest {
    ghost willing = { λ _ _. false };

    fn is_willing(&self, _tick: u32) -> bool {
        false
    }
}

// Answers in the tick after the request.
#[derive(Clone, Copy, Debug, PartialEq, Eq)]
pub struct AtOnce;

impl Willing for AtOnce {
    ghost willing = { λ _ _. true };

    fn is_willing(&self, _tick: u32) -> bool {
        true
    }
}

// Is willing in the ticks of each frame that its list says, and in none past it.
#[derive(Clone, Copy, Debug, PartialEq, Eq)]
pub struct ByList<'a>(pub &'a [bool]);

impl<'a> Willing for ByList<'a> {
    ghost willing = { λ w. willing_in w.0.now };

    fn is_willing(&self, tick: u32) -> bool {
        is_willing(self.0, tick)
    }
}

// A memory with a picture, the same in each frame.
#[derive(Clone, Copy, Debug, PartialEq, Eq)]
pub struct Answering<P, W> {
    pub picture: P,
    pub willing: W,
}

impl<P: Picture, W: Willing> Memory for Answering<P, W> {
    ghost script = { λ m. record { dots = λ f. P.Picture.dots m.picture; may = λ f t. just (W.Willing.willing m.willing t) } };

    fn willing(&mut self, tick: u32) -> bool {
        self.willing.is_willing(tick)
    }

    fn read(&mut self, first: u32, part: &mut [u16]) {
        self.picture.copy(first, part);
    }
}
