// A way of answering as a number: bit by bit, in which ticks the memory is willing.
ghost use Rattle.std.specs.Prelude.{◌≡◌, ℕ, ◌<◌, false, slice_index_or};
ghost use Rattle.sweep.specs.Trial.{flag_in};

pub fn flags_of(way: u32) -> [bool; 20]
    ensures { (k : ℕ) → k < 20 → slice_index_or result k false ≡ flag_in way k }
{
    let mut flags = [false; 20];
    for (tick, flag) in flags.iter_mut().enumerate() {
        *flag = (way >> tick) % 2 == 1;
    }
    flags
}
