// Writing what is brought into the ring.
ghost use Rattle.std.specs.Prelude.{◌≡◌, ◌%◌, ◌<◌, ◌≤◌, length};
ghost use Rattle.fifo.specs.Ring.{filled};

// Not by `bring`, whose dots are a memory's: these are there, and the ring is pinned whole.
// Writes the dots from dot `first` of the frame on, whose place is `at`: up to the ring's end, and the others from its start.
pub(crate) fn fill(ring: &mut [u16], first: u32, at: usize, brought: &[u16])
    requires few { length brought.now ≤ length ring.old }
    requires place { at ≡ first % length ring.old }
    requires inside { at < length ring.old }
    ensures { ring.new ≡ filled (length ring.old) first brought.now ring.old }
{
    let straight = brought.len().min(ring.len() - at);
    ring[at..at + straight].copy_from_slice(&brought[..straight]);
    ring[0..brought.len() - straight].copy_from_slice(&brought[straight..]);
}
