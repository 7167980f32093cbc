//! Settings that are set.
ghost use Rattle.std.specs.Prelude.{◌≡◌, ℕ, Ok};
ghost use Rattle.lake_model.specs.Readings.{◌then◌};
ghost use Rattle.lake_calls.specs.declared.call.Call.TheVariants.{Settings};
ghost use Rattle.lake_calls.specs.declared.call.SettingCall.TheVariants as setting;
ghost use Rattle.lake_calls.specs.declared.reply.Done.TheVariants as done;
ghost use Rattle.call_changes.specs.AnsweredChanges.{IsChangeAnswered};

use call_readings::{Answered, Names, answer, out_of_memory};
use keeper::Keeper;
use lake_base::{RepoName, TryCopy};
use lake_calls::Done;
use lake_model::StepFault;
use lake_values::{HookRules, Note, NoteName, Protection};
use shared_lake::{LakeSeat, Shared};
use std::alloc::Global;
use std::sync::Wait;

/// Sets the patterns of protected branches, whatever they were. Stopped, HistoryFull, NoRepo, StoreFault. It waits.
pub fn set_protection<K: Keeper, W: Wait>(
    rt: &W,
    alloc: Global,
    lake: &Shared<K>,
    seat: &mut LakeSeat,
    number: u64,
    repo: &RepoName,
    protection: &Protection,
) -> Answered
    requires { seat.old.turn ≡ lake.now }
    ensures { (moment : ℕ) → IsChangeAnswered seat.old seat.new number
        (Settings (setting.SetProtection repo.now protection.now)) moment result }
{
    let protection = match protection.copy(alloc) {
        Ok(protection) => protection,
        Err(_) => return out_of_memory(rt, lake, seat, repo),
    };
    let note = Some(Note::Protection(protection));
    let set = lake.set_note(rt, seat, number, repo, None, NoteName::Protection, note);
    let outcome = protection_set(set);
    let names = Names::of_repository(repo);
    answer(alloc, seat, &names, outcome)
}

/// Sets the hooks, whatever they were. Stopped, HistoryFull, NoRepo, StoreFault. It waits.
pub fn set_hooks<K: Keeper, W: Wait>(
    rt: &W,
    alloc: Global,
    lake: &Shared<K>,
    seat: &mut LakeSeat,
    number: u64,
    repo: &RepoName,
    hooks: &HookRules,
) -> Answered
    requires { seat.old.turn ≡ lake.now }
    ensures { (moment : ℕ) → IsChangeAnswered seat.old seat.new number
        (Settings (setting.SetHooks repo.now hooks.now)) moment result }
{
    let hooks = match hooks.copy(alloc) {
        Ok(hooks) => hooks,
        Err(_) => return out_of_memory(rt, lake, seat, repo),
    };
    let note = Some(Note::Hooks(hooks));
    let set = lake.set_note(rt, seat, number, repo, None, NoteName::Hooks, note);
    let outcome = hooks_set(set);
    let names = Names::of_repository(repo);
    answer(alloc, seat, &names, outcome)
}

// What the step told, as the call's client is told it.
fn protection_set(set: Result<u64, StepFault>) -> Result<Done, StepFault>
    ensures { result ≡ (set then λ at. Ok done.ProtectionSet) }
{
    match set {
        Ok(_) => Ok(Done::ProtectionSet),
        Err(fault) => Err(fault),
    }
}

// The same of hooks.
fn hooks_set(set: Result<u64, StepFault>) -> Result<Done, StepFault>
    ensures { result ≡ (set then λ at. Ok done.HooksSet) }
{
    match set {
        Ok(_) => Ok(Done::HooksSet),
        Err(fault) => Err(fault),
    }
}
