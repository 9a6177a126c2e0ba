// The memory that the dots come from.
ghost use Rattle.std.specs.Prelude.{◌≡◌, ℕ, ◌+◌, ◌<◌, true, length, slice_index};
ghost use Rattle.fifo.specs.Script.{Script};

// A memory that answers when it likes within its time. That it keeps its script stands wherever one is lent: a fact of two states is no type's.
pub trait Memory {
    // its dots, and what it may say, in the frame that is played and in those after it
    ghost script: { Self → Script };

    // Whether it answers in this tick of the frame if it need not.
    fn willing(&mut self, tick: u32) -> bool
        ensures says { (script self.old).may 0 tick result ≡ true }
        ensures same { script self.new ≡ script self.old };

    // Writes its dots from dot `first` of the frame on.
    fn read(&mut self, first: u32, part: &mut [u16])
        ensures same { script self.new ≡ script self.old }
        ensures read { (i : ℕ) → i < length part.new → slice_index part.new i ≡ (script self.old).dots 0 (first + i) };
}
