//! Settings: protection and hooks.
ghost use Rattle.std.specs.Prelude.{◌≡◌};
ghost use Rattle.lake_model.specs.Readings.{◌then◌};
ghost use Rattle.lake_model.specs.Refusals.{Gives};
ghost use Rattle.core_readings.specs.Answers.{note_answer};
ghost use Rattle.lake_calls.specs.declared.call.Call.TheVariants.{Settings};
ghost use Rattle.lake_calls.specs.declared.call.SettingCall.TheVariants as setting;
ghost use Rattle.call_readings.specs.AnsweredReadings.{IsReadingAnswered};
ghost use Rattle.call_readings.specs.StepOutcomes.{hooks_in, protection_in};

use crate::answers::{Answered, answer};
use crate::refusals::Names;
use keeper::Keeper;
use lake_base::RepoName;
use lake_calls::Done;
use lake_model::StepFault;
use lake_values::{Note, NoteName};
use shared_lake::{LakeSeat, Shared};
use std::alloc::Global;
use std::sync::Wait;

/// The patterns of protected branches. NoRepo, NoNote. It waits.
pub fn get_protection<K: Keeper, W: Wait>(
    rt: &W,
    alloc: Global,
    lake: &Shared<K>,
    seat: &mut LakeSeat,
    repo: &RepoName,
) -> Answered
    requires { seat.old.turn ≡ lake.now }
    ensures { IsReadingAnswered seat.old seat.new (Settings (setting.GetProtection repo.now)) result }
{
    let found = lake.note(rt, seat, repo, NoteName::Protection);
    let outcome = protection_found(found);
    let names = Names::of_repository(repo);
    answer(alloc, seat, &names, outcome)
}

/// The hooks. NoRepo, NoNote. It waits.
pub fn get_hooks<K: Keeper, W: Wait>(
    rt: &W,
    alloc: Global,
    lake: &Shared<K>,
    seat: &mut LakeSeat,
    repo: &RepoName,
) -> Answered
    requires { seat.old.turn ≡ lake.now }
    ensures { IsReadingAnswered seat.old seat.new (Settings (setting.GetHooks repo.now)) result }
{
    let found = lake.note(rt, seat, repo, NoteName::Hooks);
    let outcome = hooks_found(found);
    let names = Names::of_repository(repo);
    answer(alloc, seat, &names, outcome)
}

// What a setting tells that is protection.
fn protection_found(found: Result<(u64, u64, Note), StepFault>) -> Result<Done, StepFault>
    ensures { Gives result (note_answer found then λ reply. protection_in reply.note) }
{
    let (_, _, note) = found?;
    match note {
        Note::Protection(protection) => Ok(Done::Protection(protection)),
        _ => Err(StepFault::NoNote),
    }
}

// What a setting tells that is hooks.
fn hooks_found(found: Result<(u64, u64, Note), StepFault>) -> Result<Done, StepFault>
    ensures { Gives result (note_answer found then λ reply. hooks_in reply.note) }
{
    let (_, _, note) = found?;
    match note {
        Note::Hooks(hooks) => Ok(Done::Hooks(hooks)),
        _ => Err(StepFault::NoNote),
    }
}
