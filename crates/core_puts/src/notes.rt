//! Settings.
ghost use Rattle.std.specs.Prelude.{◌≡◌, ◌++◌, ◌∷◌, [], false, IfOk, IfSome, IsSome, OnOk, option_copied};
ghost use Rattle.std.specs.Option.{ForSome};
ghost use Rattle.std.specs.FinMap.{get};
ghost use Rattle.lake_base.specs.Names.{is_like_id};
ghost use Rattle.lake_values.specs.NoteNames.{note_name};
ghost use Rattle.lake_format.specs.Spelling.{AreBytes};
ghost use Rattle.pair_format.specs.declared.stored.Stored.TheVariants as stored;
ghost use Rattle.core_state.specs.RepositoryStates.{repository_value};
ghost use Rattle.core_state.specs.Counts.{AreFew};
ghost use Rattle.core_state.specs.LakeStates.{lake_value};
ghost use Rattle.core_puts.specs.Puts.{HasText, note_put, note_text, repository_put, set_note_puts};

use crate::pushing::{push_counts, push_removed, push_spelled};
use core_state::{LakeState, RepositoryState};
use hook_rules::{write_hooks, write_protection};
use keeper::Put;
use lake_base::{NoMemory, RepoName, Sequence, TryCopy};
use lake_values::{Note, NoteName};
use pair_format::{Stored, StoredKey};
use std::alloc::Global;

/// The puts of a setting that is set, or deleted where no new one is given: none, where the repository isn't there.
/// Retention has no text yet, so it can't be set.
#[tactic(auto, unfolding(core_state::specs::LakeStates::lake_value))]
pub fn set_note_puts(
    alloc: Global,
    lake: &LakeState,
    repo: &RepoName,
    name: NoteName,
    note: Option<&Note>,
) -> Result<Vec<Put>, NoMemory>
    requires name { IfSome (option_copied note) (λ n. note_name n ≡ name) }
    requires text { IfSome (option_copied note) HasText }
    requires plain { ForSome (get (lake_value lake.now).repositories repo.now)
        (λ r. is_like_id r.default_branch ≡ false) }
    requires few { AreFew (lake_value lake.now) }
    ensures puts { IfOk result (λ puts. puts.items
        ≡ set_note_puts repo.now name (option_copied note.entry) (lake_value lake.now)) }
    ensures limits { OnOk result (IsSome (get (lake_value lake.now).repositories repo.now)
        → IfSome (option_copied note.entry) (λ n. AreBytes (note_text n))) }
{
    let mut puts = Vec::new(alloc);
    let Some(repository) = lake.repository(repo) else {
        return Ok(puts);
    };
    push_note(alloc, &mut puts, repo, name, note)?;
    push_repository(alloc, &mut puts, repo, repository, lake.next_version)?;
    push_counts(
        alloc,
        &mut puts,
        lake.next_number,
        lake.next_version + 1,
        lake.next_token,
    )?;
    Ok(puts)
}

// Appends the put of a setting.
fn push_note(
    alloc: Global,
    puts: &mut Vec<Put>,
    repo: &RepoName,
    name: NoteName,
    note: Option<&Note>,
) -> Result<(), NoMemory>
    requires { IfSome (option_copied note) HasText }
    ensures puts { OnOk result (puts.new.items
        ≡ puts.old.items ++ note_put repo.now name (option_copied note.entry) ∷ []) }
    ensures limits { OnOk result (IfSome (option_copied note.entry) (λ n. AreBytes (note_text n))) }
{
    match note {
        None => push_removed(alloc, puts, &StoredKey::Note { repo, name }),
        Some(note) => {
            let stored = stored_note(alloc, repo, name, note)?;
            push_spelled(alloc, puts, stored)
        }
    }
}

// What is stored of a setting.
fn stored_note(
    alloc: Global,
    repo: &RepoName,
    name: NoteName,
    note: &Note,
) -> Result<Stored, NoMemory>
    requires { HasText note.now }
    ensures { IfOk result (λ setting. setting ≡ stored.Note repo.now name (note_text note.now)) }
{
    let repo = repo.copy(alloc)?;
    let text = note_text(alloc, note)?;
    Ok(Stored::Note { repo, name, text })
}

// The text of a setting.
fn note_text(alloc: Global, note: &Note) -> Result<Sequence<u8>, NoMemory>
    requires { HasText note.now }
    ensures { IfOk result (λ text. text ≡ note_text note.now) }
{
    let text = match note {
        Note::Retention(_) => unreachable!(),
        Note::Protection(protection) => write_protection(alloc, protection)?,
        Note::Hooks(hooks) => write_hooks(alloc, hooks)?,
    };
    Ok(Sequence::of(text))
}

// Appends the put of a repository, with another version of its settings.
fn push_repository(
    alloc: Global,
    puts: &mut Vec<Put>,
    repo: &RepoName,
    repository: &RepositoryState,
    settings: u64,
) -> Result<(), NoMemory>
    requires { is_like_id repository.now.default_branch ≡ false }
    ensures { OnOk result (puts.new.items ≡ puts.old.items
        ++ repository_put repo.now (record (repository_value repository.now) { settings = settings }) ∷ []) }
{
    let stored = stored_repository(alloc, repo, repository, settings)?;
    push_spelled(alloc, puts, stored)
}

// What is stored of a repository, with another version of its settings.
fn stored_repository(
    alloc: Global,
    repo: &RepoName,
    repository: &RepositoryState,
    settings: u64,
) -> Result<Stored, NoMemory>
    ensures { IfOk result (λ parts. parts
        ≡ stored.Repository repo.now repository.now.created repository.now.default_branch settings) }
{
    let repo = repo.copy(alloc)?;
    let default_branch = repository.default_branch.copy(alloc)?;
    Ok(Stored::Repository {
        repo,
        created: repository.created,
        default_branch,
        settings,
    })
}
