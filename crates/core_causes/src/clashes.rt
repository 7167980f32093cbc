//! New bytes under names under which other bytes are kept.
ghost use Rattle.std.specs.Prelude.{◌≡◌, ◌∷◌, ◌<◌, [], None, Some, length, IfOk};
ghost use Rattle.std.specs.Bool.{OnTrue};
ghost use Rattle.std.specs.FinMap.{get};
ghost use Rattle.lake_format.specs.Spelling.{file_name};
ghost use Rattle.meta_range.specs.Files.{file_at, file_of};
ghost use Rattle.meta_range.specs.RangeNames.{PutsFirst, place_in};
ghost use Rattle.lake_model.specs.Commits.{Draft, bytes_of};
ghost use Rattle.lake_model.specs.Refusals.{clash_fault};
ghost use Rattle.lake_model.specs.Soundness.{IsSound};
ghost use Rattle.lake_model.specs.State.{Repository};
ghost use Rattle.core_state.specs.Index.{HasIndex};
ghost use Rattle.core_state.specs.LakeStates.{lake_value, state_of};
ghost use Rattle.meta_range.specs.Provenance.{IsMadeFrom};
ghost use Rattle.core_causes.specs.Clashing.{AreFound, AsksForBytes, TellsOrFails, clash_with, first_clash};
ghost use Rattle.core_causes.specs.Clashing.{first_twins, indexed_clash, indexed_content, other_content, other_than};

use commit_graph::commit_bytes;
use core_state::LakeState;
use lake_base::{Digest, NoMemory, Sequence};
use lake_model::StepFault;
use meta_range::{File, Provenance, Tree};
use std::alloc::Global;
use std::collections::BTreeMap;

/// What the bytes of a new commit ask, given under its id, with its tree: neither they nor a file of the tree share a
/// name with other bytes that are kept, and no two files of the tree share a name and differ. NameClash, NoMemory.
///
/// A range that is known to be one of the trees' that the map was made from is kept, and its rows aren't looked at.
pub fn test_new_commit(
    alloc: Global,
    lake: &LakeState,
    content: &File,
    tree: &Tree,
    provenance: &Provenance<'_>,
) -> Result<(), StepFault>
    requires sound { IsSound (state_of (lake_value lake.now)) }
    requires index { HasIndex (lake_value lake.now) }
    requires named { content.now ≡ file_of content.now.bytes }
    requires made { IsMadeFrom provenance.now tree.now.map }
    requires found { AreFound (lake_value lake.now) provenance.now }
    ensures { (r : Repository) (draft : Draft)
        → bytes_of (lake_value lake.now).cut r.commits draft ≡ content.now.bytes ∷ tree.now.files
        → AsksForBytes (state_of (lake_value lake.now)) r draft result }
{
    test_clash(alloc, lake, content)?;
    test_files(alloc, lake, tree, provenance)?;
    test_twins(alloc, tree)
}

// Refuses a tree where other bytes are kept under the name of a file of it. NameClash, NoMemory.
pub(crate) fn test_files(
    alloc: Global,
    lake: &LakeState,
    tree: &Tree,
    provenance: &Provenance<'_>,
) -> Result<(), StepFault>
    requires made { IsMadeFrom provenance.now tree.now.map }
    requires found { AreFound (lake_value lake.now) provenance.now }
    ensures { TellsOrFails (clash_fault (first_clash (lake_value lake.now) tree.now.files)) result }
{
    for place in 0..=tree.range_count() {
        test_file(alloc, lake, tree, provenance, place)?;
    }
    Ok(())
}

// Refuses the file of a tree at a place where other bytes are kept under its name. NameClash, NoMemory.
fn test_file(
    alloc: Global,
    lake: &LakeState,
    tree: &Tree,
    provenance: &Provenance<'_>,
    place: usize,
) -> Result<(), StepFault>
    requires within { place < length tree.now.files }
    requires made { IsMadeFrom provenance.now tree.now.map }
    requires found { AreFound (lake_value lake.now) provenance.now }
    ensures { TellsOrFails (clash_fault (indexed_clash (lake_value lake.now) (file_at tree.now.files place))) result }
{
    if is_free(alloc, lake, tree, provenance, place)? {
        return Ok(());
    }
    let new = tree.file(alloc, place)?;
    test_clash(alloc, lake, &new)
}

// Whether nothing is found under the name of the file of a tree at a place, or a file that is the same. A range that is
// known to be one of the trees' that the map was made from is kept; another is compared with a range by its rows, and
// isn't written.
fn is_free(
    alloc: Global,
    lake: &LakeState,
    tree: &Tree,
    provenance: &Provenance<'_>,
    place: usize,
) -> Result<bool, NoMemory>
    requires within { place < length tree.now.files }
    requires made { IsMadeFrom provenance.now tree.now.map }
    requires found { AreFound (lake_value lake.now) provenance.now }
    ensures { IfOk result (λ free. OnTrue free (other_content (lake_value lake.now)
        (file_name (file_at tree.now.files place)) (file_at tree.now.files place) ≡ None)) }
{
    let name = tree.file_name(place);
    if lake.commit(&name).is_some() {
        return Ok(false);
    }
    if place > 0 && provenance.has_range(tree, place) {
        return Ok(true);
    }
    match lake.file(&name) {
        Some(kept) => kept.has_file_of(alloc, tree, place),
        None => Ok(true),
    }
}

// Refuses a tree of which two files share a name and differ. NameClash, NoMemory.
pub(crate) fn test_twins(alloc: Global, tree: &Tree) -> Result<(), StepFault>
    ensures { TellsOrFails (clash_fault (first_twins [] tree.now.files)) result }
{
    let mut firsts = BTreeMap::new(alloc);
    for place in 0..=tree.range_count() {
        if let Some(first) = earlier_place(&mut firsts, tree.file_name(place), place)? {
            test_twin(alloc, tree, first, place)?;
        }
    }
    Ok(())
}

// The place that a table tells of a name. Where it tells of none, the name is put there, at this place. NoMemory.
fn earlier_place(
    firsts: &mut BTreeMap<Digest, usize>,
    name: Digest,
    place: usize,
) -> Result<Option<usize>, NoMemory>
    ensures { IfOk result (λ earlier. (earlier ≡ place_in firsts.old.entries name)
        × PutsFirst firsts.old.entries firsts.new.entries name place) }
{
    if let Some(first) = firsts.get(&name) {
        return Ok(Some(*first));
    }
    firsts.insert(name, place)?;
    Ok(None)
}

// Refuses the file of a tree at a place where it isn't that at an earlier place, whose name it has. NameClash,
// NoMemory.
fn test_twin(alloc: Global, tree: &Tree, first: usize, place: usize) -> Result<(), StepFault>
    requires earlier { first < length tree.now.files }
    requires here { place < length tree.now.files }
    ensures { TellsOrFails (clash_fault
        (clash_with (file_at tree.now.files place) (Some (file_at tree.now.files first)))) result }
{
    if tree.has_file_of(alloc, first, tree, place)? {
        return Ok(());
    }
    Err(StepFault::NameClash {
        name: tree.file_name(place),
        kept: tree.file(alloc, first)?.bytes,
        new: tree.file(alloc, place)?.bytes,
    })
}

// Refuses new bytes under a name under which other bytes are kept. NameClash, NoMemory.
pub(crate) fn test_clash(alloc: Global, lake: &LakeState, new: &File) -> Result<(), StepFault>
    ensures { new.now.name ≡ file_name new.now.bytes
        → TellsOrFails (clash_fault (indexed_clash (lake_value lake.now) new.now.bytes)) result }
{
    match find_other(alloc, lake, &new.name, new.bytes.as_slice())? {
        None => Ok(()),
        Some(kept) => Err(StepFault::NameClash {
            name: new.name,
            kept,
            new: Sequence::of(Vec::from_slice(alloc, new.bytes.as_slice())?),
        }),
    }
}

// Other bytes than these that are kept under a name: those of a commit, or else those of a file.
fn find_other(
    alloc: Global,
    lake: &LakeState,
    name: &Digest,
    new: &[u8],
) -> Result<Option<Sequence<u8>>, NoMemory>
    ensures { IfOk result (λ kept. kept ≡ other_content (lake_value lake.now) name.now new.now) }
{
    match find_commit(alloc, lake, name, new)? {
        Some(kept) => Ok(Some(kept)),
        None => find_file(alloc, lake, name, new),
    }
}

// The bytes of the commit of an id, where they are other than these.
fn find_commit(
    alloc: Global,
    lake: &LakeState,
    id: &Digest,
    new: &[u8],
) -> Result<Option<Sequence<u8>>, NoMemory>
    ensures { IfOk result (λ kept. kept ≡ other_than new.now (indexed_content (lake_value lake.now) id.now)) }
{
    let Some(commit) = lake.commit(id) else {
        return Ok(None);
    };
    let kept = commit_bytes(alloc, commit)?;
    if kept.as_slice() == new {
        return Ok(None);
    }
    Ok(Some(Sequence::of(kept)))
}

// The bytes of the file of a name, where they are other than these.
fn find_file(
    alloc: Global,
    lake: &LakeState,
    name: &Digest,
    new: &[u8],
) -> Result<Option<Sequence<u8>>, NoMemory>
    ensures { IfOk result (λ kept. kept ≡ other_than new.now (get (lake_value lake.now).names.files name.now.0)) }
{
    let Some(place) = lake.file(name) else {
        return Ok(None);
    };
    let kept = place.bytes(alloc)?;
    if kept.as_slice() == new {
        return Ok(None);
    }
    Ok(Some(kept))
}
