//! Tags, settings and changes under tokens join a lake; commits are gathered.
ghost use Rattle.std.specs.Prelude.{◌≡◌, ◌++◌, Some, All, OnOk, IfOk, map};
ghost use Rattle.std.specs.BTreeMap.{get as tree_get};
ghost use Rattle.std.specs.List.{AllByRecursion};
ghost use Rattle.std.specs.Option.{option_to_list};
ghost use Rattle.std.specs.Ordering.{nat_cmp};
ghost use Rattle.lake_format.specs.Spelling.{commit_id};
ghost use Rattle.pair_format.specs.declared.stored.Stored.TheVariants as stored;
ghost use Rattle.pair_trees.specs.PairTrees.{trees_of};
ghost use Rattle.pair_trees.specs.SettingTexts.{IsSettingText};
ghost use Rattle.core_state.specs.LakeStates.{lake_value};
ghost use Rattle.core_filling.specs.Filling.{IsNamed, commit_read};
ghost use Rattle.opening_parts.specs.Filled.{CanJoin};
ghost use Rattle.opening_parts.specs.Fillings.{from_last, reads_of, setting_in, with_change_of, with_rest, with_setting};
ghost use Rattle.opening_parts.specs.Gathered.{read_from, read_of_tree};

use core_filling::{Holders, Part, ReadCommit, put_part};
use core_state::LakeState;
use lake_base::{NoMemory, Path, RepoName};
use lake_format::Cut;
use lake_values::{Change, CommitId, CommitRecord, NoteName};
use pair_format::Stored;
use pair_trees::{ReadTree, read_note};
use std::alloc::Global;
use std::sync::Arc;

// Puts the tags, settings and changes under tokens, the last one first, and gathers the commits with their trees.
#[tactic(auto, unfolding(pair_trees::specs::PairTrees::trees_of))]
pub(crate) fn put_others(
    alloc: Global,
    lake: &mut LakeState,
    holders: &Holders,
    mut things: Vec<Option<Stored>>,
    mut trees: Vec<Option<ReadTree>>,
    cut: &Cut,
) -> Result<Vec<ReadCommit>, NoMemory>
    requires trees { trees.items ≡ trees_of cut.now things.items }
    requires join { AllByRecursion CanJoin things.items }
    ensures lake { OnOk result (lake_value lake.new
        ≡ from_last (with_rest (tree_get nat_cmp holders.now)) things.items (lake_value lake.old)) }
    ensures reads { IfOk result (λ commits. map commit_read commits.items ≡ reads_of cut.now things.items) }
    ensures named { IfOk result (λ commits. All IsNamed commits.items) }
{
    let _ = cut;
    let mut commits = Vec::new(alloc);
    while let Some(thing) = things.pop() {
        let tree = trees.pop();
        put_other(alloc, lake, holders, &mut commits, thing, tree)?;
    }
    Ok(commits)
}

// Puts a thing, or gathers it, where it is a commit.
fn put_other(
    alloc: Global,
    lake: &mut LakeState,
    holders: &Holders,
    commits: &mut Vec<ReadCommit>,
    thing: Option<Stored>,
    tree: Option<Option<ReadTree>>,
) -> Result<(), NoMemory>
    requires join { CanJoin thing }
    requires named { All IsNamed commits.old.items }
    ensures lake { OnOk result (lake_value lake.new
        ≡ with_rest (tree_get nat_cmp holders.now) thing (lake_value lake.old)) }
    ensures reads { OnOk result (map commit_read commits.new.items
        ≡ map commit_read commits.old.items ++ option_to_list (read_from thing tree)) }
    ensures named { OnOk result (All IsNamed commits.new.items) }
{
    match thing {
        Some(
            Stored::Commit {
                repo,
                id,
                expired,
                commit,
            },
        ) => push_commit(alloc, commits, (repo, id, expired, commit), tree),
        Some(stored) => put_stored(alloc, lake, holders, stored),
        None => Ok(()),
    }
}

// Gathers a commit with its tree, where that is read.
fn push_commit(
    alloc: Global,
    commits: &mut Vec<ReadCommit>,
    parts: (RepoName, CommitId, bool, CommitRecord),
    tree: Option<Option<ReadTree>>,
) -> Result<(), NoMemory>
    requires id { commit_id parts.3 ≡ parts.1 }
    requires named { All IsNamed commits.old.items }
    ensures reads { OnOk result (map commit_read commits.new.items
        ≡ map commit_read commits.old.items ++ option_to_list (read_of_tree parts.0 parts.2 parts.3 tree)) }
    ensures named { OnOk result (All IsNamed commits.new.items) }
{
    let (repo, id, expired, commit) = parts;
    match tree {
        Some(Some(Ok(tree))) => {
            let tree = Arc::new(alloc, tree)?;
            commits.push(ReadCommit {
                repo,
                id,
                expired,
                commit,
                tree,
            })?;
            Ok(())
        }
        _ => Ok(()),
    }
}

// Puts a tag, a setting or a change under a token.
fn put_stored(
    alloc: Global,
    lake: &mut LakeState,
    holders: &Holders,
    stored: Stored,
) -> Result<(), NoMemory>
    requires { CanJoin (Some stored) }
    ensures { OnOk result (lake_value lake.new
        ≡ with_rest (tree_get nat_cmp holders.now) (Some stored) (lake_value lake.old)) }
{
    match stored {
        Stored::Tag { repo, tag, commit } => {
            put_part(alloc, lake, &repo, Part::Tag { name: tag, commit })
        }
        Stored::Note { repo, name, text } => {
            put_setting(alloc, lake, &repo, name, text.as_slice())
        }
        Stored::Staged {
            token,
            path,
            change,
        } => put_change(alloc, lake, holders, token, path, change),
        _ => Ok(()),
    }
}

// Puts the setting of which this is the text.
fn put_setting(
    alloc: Global,
    lake: &mut LakeState,
    repo: &RepoName,
    name: NoteName,
    text: &[u8],
) -> Result<(), NoMemory>
    requires { IsSettingText name text.now }
    ensures { OnOk result (lake_value lake.new
        ≡ with_setting repo.now (setting_in name text.now) (lake_value lake.old)) }
{
    match read_note(alloc, name, text)? {
        Some(note) => put_part(alloc, lake, repo, Part::Setting(note)),
        None => Ok(()),
    }
}

// Puts a change under a token of the branch that names it.
fn put_change(
    alloc: Global,
    lake: &mut LakeState,
    holders: &Holders,
    token: u64,
    path: Path,
    change: Change,
) -> Result<(), NoMemory>
    ensures { OnOk result (lake_value lake.new
        ≡ with_change_of (tree_get nat_cmp holders.now token) token path change (lake_value lake.old)) }
{
    match holders.get(&token) {
        Some(holder) => {
            let part = Part::Change {
                branch: &holder.1,
                token,
                path,
                change,
            };
            put_part(alloc, lake, &holder.0, part)
        }
        None => Ok(()),
    }
}
