//! What holds of changes over entries.
ghost use Rattle.std.specs.Prelude.{◌≡◌, ℕ, List};
ghost use Rattle.std.specs.FinMap.{entries, from_sorted};
ghost use Rattle.lake_base.specs.Maps.{HasAscendingKeys};
ghost use Rattle.lake_values.specs.Entry.{EntryValue};
ghost use Rattle.lake_values.specs.KeyMap.{ChangesValue, KeyMapValue, apply};
ghost use Rattle.lake_values.specs.declared.entry.Change.{Change as AnyChange};
ghost use Rattle.branch_record.specs.Layers.{rows_over};

/// What changes leave of rows, both in ascending order of path, is the entries of the map of these rows to which the
/// changes are applied. (A law: it does nothing.)
pub fn law_of_layers()
    ensures rows { (changes : List (List ℕ × AnyChange)) (rows : List (List ℕ × EntryValue))
        → HasAscendingKeys changes → HasAscendingKeys rows
        → rows_over changes rows ≡ entries (apply (from_sorted changes) (from_sorted rows)) }
    ensures maps { (changes : ChangesValue) (map : KeyMapValue)
        → rows_over (entries changes) (entries map) ≡ entries (apply changes map) }
{}
