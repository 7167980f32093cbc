//! The first byte of a key, which says what is stored.
ghost use Rattle.std.specs.Prelude.{◌≡◌};
ghost use Rattle.pair_format.specs.Keys.{kind_of};

/// What is stored in a pair.
#[derive(Clone, Copy, Debug, PartialEq, Eq)]
pub(crate) enum Kind {
    Repository,
    Branch,
    Tag,
    Commit,
    MetaRange,
    Range,
    Staged,
    Note,
    Gone,
    Counts,
}

impl Kind {
    // The kind of which this is the first byte.
    pub(crate) fn of(letter: u8) -> Option<Kind>
        ensures { result ≡ kind_of letter }
    {
        match letter {
            b'R' => Some(Kind::Repository),
            b'B' => Some(Kind::Branch),
            b'T' => Some(Kind::Tag),
            b'C' => Some(Kind::Commit),
            b'M' => Some(Kind::MetaRange),
            b'G' => Some(Kind::Range),
            b'S' => Some(Kind::Staged),
            b'N' => Some(Kind::Note),
            b'X' => Some(Kind::Gone),
            b'Z' => Some(Kind::Counts),
            _ => None,
        }
    }
}
