// Memories that play frame after frame.
ghost use Rattle.std.specs.Prelude.{◌≡◌, ℕ, true, false};
ghost use Rattle.std.proofs.Common.{rules};
ghost use Rattle.fifo.specs.Script.{next_frame};

use fifo::{Answering, Memory, Picture, Willing};

// A memory of which it is known beforehand what it says in each tick of each frame.
pub trait Scripted: Memory {
    // The frame is over, and the next one is played.
    fn turn(&mut self)
        ensures { Self.script self.new ≡ next_frame (Self.script self.old) };

    ghost decided: { (m : Self) (f t : ℕ) → (Self.script m).may f t false ≡ true → (Self.script m).may f t true ≡ false };
}

impl<P: Picture, W: Willing> Scripted for Answering<P, W> {
    fn turn(&mut self) {}

    ghost decided = { λ m f t. Prim.search rules };
}
