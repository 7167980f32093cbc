//! Calls of commits.
ghost use Rattle.std.specs.Prelude.{◌≡◌, ◌≤◌, length, Some, IfOk};
ghost use Rattle.serde_json.specs.View.{view};
ghost use Rattle.api_routes.specs.FormSteps.{IsRead};
ghost use Rattle.api_routes.specs.RouteTable.{seen_found};
ghost use Rattle.api_forms.specs.HeadForms.{commit_message, fits_default, FitsMerge, merge_message_of, strategy_of};
ghost use Rattle.api_forms.specs.HeadForms.{parent_of, commit_call, merge_body, merge_call, pick_body};
ghost use Rattle.api_forms.specs.HeadForms.{pick_call, log_call, get_commit, head_call};

use crate::naming::expression_field;
use api_bodies::body::{object_body, short_text, text_field, text_of, whole_field};
use api_bodies::head_fields::committer_of;
use api_bodies::metadata::metadata_of;
use api_routes::{
    FormFault, Found, HeadRoute, amount_in_query, bad_value, digest_in_query, digest_segment,
    expression_segment, moment_in_query, ref_name_segment, repo_segment,
};
use http_wire::Field;
use lake_base::{RefName, Text};
use lake_calls::{CommitCall, Expression, HeadCall, LogCall, MergeCall, PickCall};
use lake_values::{Pairs, Strategy};
use serde_json::Value;
use std::alloc::Global;

// The message of a commit, empty where there is none; else a bad value.
fn commit_message(alloc: Global, object: &Value) -> Result<Text, FormFault>
    ensures message { IsRead (λ text. text) result (commit_message (view object.now)) }
    ensures short { IfOk result (λ text. length text ≤ 65536) }
{
    match short_text(alloc, object, "message", 65536)? {
        Some(text) => text_of(alloc, text),
        None => Ok(Text::of(String::new(alloc))),
    }
}

// Changes of a branch are to be committed.
fn commit_call(
    alloc: Global,
    repo: &[u8],
    branch: &[u8],
    fields: &[Field],
    body: &[u8],
) -> Result<CommitCall, FormFault>
    ensures { IsRead (λ call. call) result (commit_call repo.now branch.now fields.now body.now) }
{
    let repo = repo_segment(alloc, "r", repo)?;
    let branch = ref_name_segment(alloc, "b", branch)?;
    let committer = committer_of(alloc, fields)?;
    let object = object_body(alloc, body)?;
    let message = commit_message(alloc, &object)?;
    let metadata = metadata_of(alloc, &object)?;
    Ok(CommitCall {
        repo,
        branch,
        committer,
        message,
        metadata,
    })
}

// Whether the message of a merge without one is within the limit of a commit's.
#[tactic(auto, using(crate::proofs::LimitLemmas::merge_message_length))]
fn fits_default(source: &Expression, branch: &RefName) -> bool
    ensures { result ≡ fits_default source.now.text branch.now }
{
    let source = source.text().as_slice().len();
    let branch = branch.as_slice().len();
    if source > 65536 || branch > 65536 {
        return false;
    }
    16 + (source + branch) <= 65536
}

// The message of a merge, where there is one; a bad value where the message that its commit gets is too long.
fn merge_message_of(
    alloc: Global,
    object: &Value,
    source: &Expression,
    branch: &RefName,
) -> Result<Option<Text>, FormFault>
    ensures message { IsRead (λ text. text) result (merge_message_of source.now.text branch.now (view object.now)) }
    ensures short { IfOk result (FitsMerge source.now.text branch.now) }
{
    match short_text(alloc, object, "message", 65536)? {
        Some(text) => Ok(Some(text_of(alloc, text)?)),
        None if fits_default(source, branch) => Ok(None),
        None => Err(bad_value(alloc, "message")),
    }
}

// The strategy of a merge; without one it is refused where paths conflict.
fn strategy_of(alloc: Global, object: &Value) -> Result<Strategy, FormFault>
    ensures { IsRead (λ strategy. strategy) result (strategy_of (view object.now)) }
{
    match text_field(alloc, object, "strategy")? {
        None => Ok(Strategy::Refuse),
        Some("") => Ok(Strategy::Refuse),
        Some("source-wins") => Ok(Strategy::SourceWins),
        Some("dest-wins") => Ok(Strategy::DestWins),
        Some(_) => Err(bad_value(alloc, "strategy")),
    }
}

// What the body of a merge says: its message, its metadata and its strategy.
fn merge_body(
    alloc: Global,
    source: &Expression,
    branch: &RefName,
    body: &[u8],
) -> Result<(Option<Text>, Pairs, Strategy), FormFault>
    ensures said { IsRead (λ said. said) result (merge_body source.now.text branch.now body.now) }
    ensures short { IfOk result (λ said. FitsMerge source.now.text branch.now said.0) }
{
    let object = object_body(alloc, body)?;
    let message = merge_message_of(alloc, &object, source, branch)?;
    let metadata = metadata_of(alloc, &object)?;
    let strategy = strategy_of(alloc, &object)?;
    Ok((message, metadata, strategy))
}

// A commit is to be merged into a branch.
fn merge_call(
    alloc: Global,
    found: &Found<'_>,
    fields: &[Field],
    body: &[u8],
) -> Result<MergeCall, FormFault>
    ensures { IsRead (λ call. call) result (merge_call (seen_found found.now) fields.now body.now) }
{
    let repo = repo_segment(alloc, "r", found.repo)?;
    let source = expression_segment(alloc, "src", found.second)?;
    let branch = ref_name_segment(alloc, "dst", found.third)?;
    let committer = committer_of(alloc, fields)?;
    let (message, metadata, strategy) = merge_body(alloc, &source, &branch, body)?;
    Ok(MergeCall {
        repo,
        source,
        branch,
        committer,
        message,
        metadata,
        strategy,
    })
}

// The number of a parent; 0 is none.
fn parent_of(alloc: Global, object: &Value) -> Result<Option<u32>, FormFault>
    ensures number { IsRead (λ parent. parent) result (parent_of (view object.now)) }
    ensures counts { IfOk result (λ parent. parent ≡ Some 0 → ⊥) }
{
    match whole_field(alloc, object, "parent_number")? {
        None | Some(0) => Ok(None),
        Some(number) => match u32::try_from(number) {
            Ok(number) => Ok(Some(number)),
            Err(_) => Err(bad_value(alloc, "parent_number")),
        },
    }
}

// What the body of a pick says: the commit, and the number of its parent.
fn pick_body(alloc: Global, body: &[u8]) -> Result<(Expression, Option<u32>), FormFault>
    ensures said { IsRead (λ said. said) result (pick_body body.now) }
    ensures counts { IfOk result (λ said. said.1 ≡ Some 0 → ⊥) }
{
    let object = object_body(alloc, body)?;
    let at = expression_field(alloc, &object, "ref")?;
    let parent = parent_of(alloc, &object)?;
    Ok((at, parent))
}

// A commit is to be taken into a branch, or to be undone there.
fn pick_call(
    alloc: Global,
    repo: &[u8],
    branch: &[u8],
    fields: &[Field],
    body: &[u8],
) -> Result<PickCall, FormFault>
    ensures { IsRead (λ call. call) result (pick_call repo.now branch.now fields.now body.now) }
{
    let repo = repo_segment(alloc, "r", repo)?;
    let branch = ref_name_segment(alloc, "b", branch)?;
    let committer = committer_of(alloc, fields)?;
    let (at, parent) = pick_body(alloc, body)?;
    Ok(PickCall {
        repo,
        branch,
        committer,
        at,
        parent,
    })
}

// The ancestors of a commit are asked for.
fn log_call(alloc: Global, repo: &[u8], at: &[u8], query: &[u8]) -> Result<LogCall, FormFault>
    ensures { IsRead (λ call. call) result (log_call repo.now at.now query.now) }
{
    let repo = repo_segment(alloc, "r", repo)?;
    let at = expression_segment(alloc, "ref", at)?;
    let after = digest_in_query(alloc, query, "after")?;
    let amount = amount_in_query(alloc, query)?;
    let since = moment_in_query(alloc, query, "since")?;
    Ok(LogCall {
        repo,
        at,
        after,
        amount,
        since,
    })
}

// A commit is asked for.
fn get_commit(alloc: Global, repo: &[u8], id: &[u8]) -> Result<HeadCall, FormFault>
    ensures { IsRead (λ call. call) result (get_commit repo.now id.now) }
{
    let repo = repo_segment(alloc, "r", repo)?;
    let id = digest_segment(alloc, "id", id)?;
    Ok(HeadCall::GetCommit { repo, id })
}

// The call of a route of commits.
pub(crate) fn head_call(
    alloc: Global,
    route: HeadRoute,
    found: &Found<'_>,
    query: &[u8],
    fields: &[Field],
    body: &[u8],
) -> Result<HeadCall, FormFault>
    ensures { IsRead (λ call. call) result
        (head_call route (seen_found found.now) query.now fields.now body.now) }
{
    let repo = found.repo;
    let second = found.second;
    match route {
        HeadRoute::Commit => Ok(HeadCall::Commit(commit_call(alloc, repo, second, fields, body)?)),
        HeadRoute::Merge => Ok(HeadCall::Merge(merge_call(alloc, found, fields, body)?)),
        HeadRoute::Revert => Ok(HeadCall::Revert(pick_call(alloc, repo, second, fields, body)?)),
        HeadRoute::CherryPick => Ok(HeadCall::CherryPick(pick_call(
            alloc, repo, second, fields, body,
        )?)),
        HeadRoute::Log => Ok(HeadCall::Log(log_call(alloc, repo, second, query)?)),
        HeadRoute::GetCommit => get_commit(alloc, repo, second),
    }
}
