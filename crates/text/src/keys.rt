// The words that a command begins with. None begins another.
ghost use Rattle.std.specs.Prelude.{◌≡◌};
ghost use Rattle.text.specs.Keyed.{key_text, IsKeyed, IsCutBy};

#[derive(Clone, Copy, Debug, PartialEq, Eq)]
pub enum Key {
    Plan,
    InTime,
    RunLatest,
    RunBy,
    ChartLatest,
    TraceLatest,
    When,
    At,
    Dots,
    Ring,
    Tick,
    State,
    Next,
    Help,
}

// Looked through one by one, and not in a map: a line begins with a key, and goes on behind it.
const KEYS: [Key; 14] = [
    Key::Plan,
    Key::InTime,
    Key::RunLatest,
    Key::RunBy,
    Key::ChartLatest,
    Key::TraceLatest,
    Key::When,
    Key::At,
    Key::Dots,
    Key::Ring,
    Key::Tick,
    Key::State,
    Key::Next,
    Key::Help,
];

impl Key {
    pub fn text(self) -> &'static str
        ensures { result.now ≡ key_text self }
    {
        match self {
            Key::Plan => "plan",
            Key::InTime => "in time?",
            Key::RunLatest => "run latest",
            Key::RunBy => "run by",
            Key::ChartLatest => "chart latest",
            Key::TraceLatest => "trace latest",
            Key::When => "when",
            Key::At => "at",
            Key::Dots => "dots",
            Key::Ring => "ring",
            Key::Tick => "tick",
            Key::State => "state",
            Key::Next => "next",
            Key::Help => "help",
        }
    }

    // The key that the line begins with, and the rest of the line.
    pub fn split(line: &[u8]) -> Option<(Key, &[u8])>
        ensures { IsKeyed line.now result }
    {
        KEYS.iter().find_map(|key| key.cut(line))
    }

    // The same of this key alone.
    fn cut(self, line: &[u8]) -> Option<(Key, &[u8])>
        ensures { IsCutBy self line.now result }
    {
        let tail = line.strip_prefix(self.text().as_bytes())?;
        Some((self, tail))
    }
}
