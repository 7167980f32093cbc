//! What is said of a new commit.
ghost use Rattle.std.specs.Prelude.{◌≡◌, [], IfOk};
ghost use Rattle.lake_calls.specs.Calls.{merge_message};
ghost use Rattle.lake_calls.specs.Courses.{commit_about, merge_about};

use lake_base::{NoMemory, RefName, Text, TryCopy};
use lake_calls::{CommitCall, Expression, MergeCall, PickCall};
use lake_values::{About, Pairs};
use std::alloc::Global;

/// What a commit says, at the moment of its call.
pub(crate) fn of_commit(alloc: Global, call: &CommitCall, moment: u64) -> Result<About, NoMemory>
    ensures { IfOk result (λ about. about ≡ commit_about call.now moment) }
{
    Ok(About {
        committer: call.committer.copy(alloc)?,
        message: call.message.copy(alloc)?,
        metadata: call.metadata.copy(alloc)?,
        date: moment,
    })
}

/// What a merge says, at the moment of its call: without a message it tells its source and its branch.
pub(crate) fn of_merge(alloc: Global, call: &MergeCall, moment: u64) -> Result<About, NoMemory>
    ensures { IfOk result (λ about. about ≡ merge_about call.now moment) }
{
    let message = match &call.message {
        Some(message) => message.copy(alloc)?,
        None => merge_message(alloc, &call.source, &call.branch)?,
    };
    Ok(About {
        committer: call.committer.copy(alloc)?,
        message,
        metadata: call.metadata.copy(alloc)?,
        date: moment,
    })
}

/// The committer of a revert or a cherry-pick and the moment of its call: its message is the flow's.
pub(crate) fn of_pick(alloc: Global, call: &PickCall, moment: u64) -> Result<About, NoMemory>
    ensures { IfOk result (λ about. about
        ≡ record { committer = call.now.committer; message = []; metadata = []; date = moment }) }
{
    Ok(About {
        committer: call.committer.copy(alloc)?,
        message: Text::of(String::new(alloc)),
        metadata: Pairs::new(alloc),
        date: moment,
    })
}

// The message of a merge without one: `Merge 'SRC' into 'DST'`.
fn merge_message(alloc: Global, source: &Expression, branch: &RefName) -> Result<Text, NoMemory>
    ensures { IfOk result (λ text. text ≡ merge_message source.now.text branch.now) }
{
    let mut text = String::new(alloc);
    text.push_str("Merge '")?;
    text.push_str(source.text().as_str())?;
    text.push_str("' into '")?;
    text.push_str(branch.as_str())?;
    text.push_str("'")?;
    Ok(Text::of(text))
}
