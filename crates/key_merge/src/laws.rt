//! What the changes of a merge come to, for the crates that make commits of them.
ghost use Rattle.std.specs.Prelude.{◌≡◌, ◌↔◌, Some, None, if◌then◌else◌};
ghost use Rattle.std.specs.FinMap.{len};
ghost use Rattle.lake_values.specs.KeyMap.{KeyMapValue, apply, differences};
ghost use Rattle.lake_values.specs.Merging.{merged_map, merge_answer, is_refused};
ghost use Rattle.lake_values.specs.declared.commit.Strategy.{Strategy as AnyStrategy};

/// Applied to the destination's map, the changes of a merge give the merged map, which is the merge's answer where
/// it isn't refused. There are none exactly where the merged map is the destination's. (A law: it does nothing.)
pub fn law_of_merges()
    ensures applied { (strategy : AnyStrategy) (base source dest : KeyMapValue)
        → apply (differences (merged_map strategy base source dest) dest) dest
        ≡ merged_map strategy base source dest }
    ensures answer { (strategy : AnyStrategy) (base source dest : KeyMapValue)
        → merge_answer strategy base source dest ≡ (if is_refused strategy base source dest then None
        else Some (apply (differences (merged_map strategy base source dest) dest) dest)) }
    ensures empty { (strategy : AnyStrategy) (base source dest : KeyMapValue)
        → (len (differences (merged_map strategy base source dest) dest) ≡ 0)
        ↔ (merged_map strategy base source dest ≡ dest) }
{}
