// The dots of a frame, wherever they stand.
ghost use Rattle.std.specs.Prelude.{◌≡◌, ℕ, ◌+◌, ◌%◌, ◌<◌, length, slice_index};

pub trait Picture {
    // dot k
    ghost dots: { Self → ℕ → ℕ };

    // Writes the dots from dot `first` on.
    fn copy(&self, first: u32, part: &mut [u16])
        ensures { (i : ℕ) → i < length part.new → slice_index part.new i ≡ dots self.now (first + i) };
}

// A picture of which each dot can be said by itself. No member of `Picture`, since a burst may come as a whole.
pub trait Indexed {
    // dot k
    ghost each: { Self → ℕ → ℕ };

    fn dot(&self, k: usize) -> u16
        ensures { result ≡ each self.now k };
}

impl<P: Indexed> Picture for P {
    ghost dots = { P.each };

    fn copy(&self, first: u32, part: &mut [u16]) {
        for (i, place) in part.iter_mut().enumerate() {
            *place = self.dot(first as usize + i);
        }
    }
}

// Dots that are given; past the last, dots of 0.
#[derive(Clone, Copy, Debug, PartialEq, Eq)]
pub struct Stored<'a> {
    pub dots: &'a [u16],
}

impl<'a> Indexed for Stored<'a> {
    ghost each = { λ p k. slice_index p.dots.now k };

    fn dot(&self, k: usize) -> u16 {
        self.dots.get(k).copied().unwrap_or(0)
    }
}

// Dots that are numbered from 0, modulo 65,536.
#[derive(Clone, Copy, Debug, PartialEq, Eq)]
pub struct Numbered;

impl Indexed for Numbered {
    ghost each = { λ p k. k % 65536 };

    fn dot(&self, k: usize) -> u16 {
        (k % 65536) as u16
    }
}
