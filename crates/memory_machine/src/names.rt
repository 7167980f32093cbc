//! Names of files are ordered by their bytes, so that maps can have them as keys.
ghost use Rattle.std.specs.Prelude.{◌≡◌, Some, refl};
ghost use Rattle.std.specs.Cmp.{partial_equiv_from_equiv};
ghost use Rattle.std.specs.Cmp.Lexicographic.{nat_list_cmp_total, nat_list_eq_equiv, texts_po, texts_ties};
ghost use Rattle.std.specs.Str.{bytes_eq};
ghost use Rattle.lake_base.specs.Maps.{byte_order};

use byte_map::ByteKey;
use lake_base::Text;
use std::cmp::Ordering;
use std::marker::Model;

/// The name of a file. Contracts see its bytes.
#[derive(Debug, Drop)]
pub struct FileName {
    text: Text,
}

impl Model for FileName {
    ghost use Rattle.std.specs.Prelude.{List, ℕ};

    ghost Value = { List ℕ };

    ghost view = { λ name. name.text };
}

impl FileName {
    /// The name of this text. It takes no memory.
    pub fn of(text: Text) -> FileName
        ensures { result ≡ text }
    {
        FileName { text }
    }
}

impl PartialEq for FileName {
    ghost eq = { bytes_eq };

    ghost laws = { partial_equiv_from_equiv nat_list_eq_equiv };

    fn eq(&self, other: &FileName) -> bool {
        self.text == other.text
    }
}

impl Eq for FileName {
    ghost laws = { nat_list_eq_equiv };
}

impl PartialOrd for FileName {
    ghost partial_cmp = { λ name other. Some (byte_order name other) };

    ghost laws = { texts_po };

    fn partial_cmp(&self, other: &FileName) -> Option<Ordering> {
        Some(self.cmp(other))
    }
}

impl Ord for FileName {
    ghost cmp = { byte_order };

    ghost total = { nat_list_cmp_total };

    ghost matches_partial_cmp = { λ _ _. refl };

    ghost matches_eq = { texts_ties };

    fn cmp(&self, other: &FileName) -> Ordering {
        self.text.cmp(&other.text)
    }
}

impl ByteKey for FileName {
    ghost bytes = { λ name. name };

    ghost by_bytes = { λ _ _. refl };
}
