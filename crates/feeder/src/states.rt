// How far the feeder has come in a frame. Dots count from the frame's first.
ghost use Rattle.std.specs.Prelude.{◌≡◌, ◌+◌, ◌<◌, ◌&&◌, if◌then◌else◌, nat_le};
ghost use Rattle.feeder.specs.Model.{answered, waiting};
ghost use Rattle.feeder.specs.Panel.{noted, asked_for};

// A flag and a count stand side by side, as among the six numbers that are lent, whose words are fixed.
#[derive(Clone, Copy, Debug, Default, PartialEq, Eq)]
pub struct Progress {
    // dots requested of the memory, and dots that have arrived: two counts that only rise
    pub requested: u32,
    pub arrived: u32,
    // an answer is awaited, and for how many ticks it has been
    pub pending: bool,
    pub waited: u32,
    // a dot had not arrived when the panel took it
    pub underrun: bool,
}

// A tick's three moves.
impl Progress {
    // The memory brings all that is pending, or nothing.
    #[tactic(auto, unfolding(crate::specs::Model::answered, crate::specs::Model::waiting))]
    pub(crate) fn answer(self, brought: bool) -> Progress
        requires { self.waited < 65536 }
        ensures { result ≡ (if brought then answered self else waiting self) }
    {
        if brought {
            return Progress {
                arrived: self.requested,
                pending: false,
                waited: 0,
                ..self
            };
        }
        let waited = if self.pending { self.waited + 1 } else { 0 };
        Progress { waited, ..self }
    }

    // The panel takes the dot behind those taken before, or none.
    #[tactic(auto, using(std::proofs::lemmas::Bool::Decides::nat_tests), unfolding(crate::specs::Panel::noted))]
    pub(crate) fn note(self, takes: bool, taken: u32) -> Progress
        ensures { result ≡ noted (takes && nat_le self.arrived taken) self }
    {
        if takes && self.arrived <= taken {
            return Progress {
                underrun: true,
                ..self
            };
        }
        self
    }

    // A burst is requested, or what is left of the frame, where there is room for it.
    #[tactic(auto, using(std::proofs::lemmas::Bool::Decides::nat_tests), unfolding(crate::specs::Panel::asked_for))]
    pub(crate) fn ask(self, burst: u32, total: u32, room: u32) -> Progress
        requires { self.requested + burst < 4294967296 }
        ensures { result ≡ asked_for burst total room self }
    {
        let requested = (self.requested + burst).min(total);
        let full = requested > room;
        if self.pending || self.requested >= total || full {
            return self;
        }
        // the tick of the request is not one of those waited
        let waited = 0;
        Progress {
            requested,
            pending: true,
            waited,
            ..self
        }
    }
}
