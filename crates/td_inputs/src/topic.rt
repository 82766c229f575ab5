//! The options that say something of inputs, and the one that says something of a net.

ghost use Rattle.std.specs.Prelude.{◌≡◌};
ghost use Rattle.td_inputs.specs.Topics.{option_of, topic_of};

/// An option that says something of inputs, or of a net.
#[derive(Clone, Copy, Debug, PartialEq, Eq)]
pub enum Topic {
    /// `--first`, the first vectors, by place.
    First,
    /// `--second`, the second vectors, by place.
    Second,
    /// `--hold`, which inputs keep their level, by place.
    Hold,
    /// `--at`, when inputs change, by place or by name.
    At,
    /// `--pin`, the level of an input, by name.
    Pin,
    /// `--hold-input`, an input that keeps its level, by name.
    HoldInput,
    /// `--keep`, a condition on a net's settled levels, by name.
    Keep,
}

impl Topic {
    ghost use Rattle.std.specs.Prelude.{◌≡◌};
    ghost use Rattle.td_inputs.specs.Topics.{option_of};

    /// The word of the option.
    pub fn option(self) -> &'static str
        ensures { result.now ≡ option_of self }
    {
        match self {
            Topic::First => "--first",
            Topic::Second => "--second",
            Topic::Hold => "--hold",
            Topic::At => "--at",
            Topic::Pin => "--pin",
            Topic::HoldInput => "--hold-input",
            Topic::Keep => "--keep",
        }
    }
}

/// The option that this word is, if it is one of them.
pub(crate) fn topic_of(word: &[u8]) -> Option<Topic>
    ensures { result ≡ topic_of word.now }
{
    if word == b"--first".as_slice() {
        Some(Topic::First)
    } else if word == b"--second".as_slice() {
        Some(Topic::Second)
    } else if word == b"--hold".as_slice() {
        Some(Topic::Hold)
    } else if word == b"--at".as_slice() {
        Some(Topic::At)
    } else if word == b"--pin".as_slice() {
        Some(Topic::Pin)
    } else if word == b"--hold-input".as_slice() {
        Some(Topic::HoldInput)
    } else if word == b"--keep".as_slice() {
        Some(Topic::Keep)
    } else {
        None
    }
}
