// Reading a burst from the memory into the ring.
ghost use Rattle.std.specs.Prelude.{◌≡◌, ◌+◌, ◌-◌, ◌%◌, ◌<◌, ◌≤◌, length, if◌then◌else◌};
ghost use Rattle.fifo.specs.Ring.{Loaded};

use super::memories::Memory;
use feeder::Progress;

// The memory's answer, if it gives one in this tick: how many dots it brings. It is lent the part of the ring that comes next, up to the ring's end, and then the part from its start.
pub(crate) fn bring<M: Memory>(
    memory: &mut M,
    ring: &mut [u16],
    f: Progress,
    brought: bool,
    at: usize,
) -> usize
    requires order { f.arrived ≤ f.requested }
    requires few { f.requested ≤ f.arrived + length ring.old }
    requires place { at ≡ f.arrived % length ring.old }
    requires inside { at < length ring.old }
    requires fits { f.requested < 4294967296 }
    ensures count { result ≡ (if brought then f.requested - f.arrived else 0) }
    ensures same { M.Memory.script memory.new ≡ M.Memory.script memory.old }
    ensures loaded { Loaded ((M.Memory.script memory.old).dots 0) f.arrived result ring.old ring.new }
{
    if !brought {
        return 0;
    }
    let count = (f.requested - f.arrived) as usize;
    let straight = count.min(ring.len() - at);
    memory.read(f.arrived, &mut ring[at..at + straight]);
    memory.read(f.arrived + straight as u32, &mut ring[0..count - straight]);
    count
}
