//! Replies as they are sent.
ghost use Rattle.std.specs.Prelude.{◌≡◌, true, IfOk};
ghost use Rattle.std.specs.List.{list_all};
ghost use Rattle.api_replies.specs.PrintedReplies.{json_reply, is_visible, stands_in_head, object_type, done_reply};
ghost use Rattle.api_replies.specs.PrintedReplies.{printed_reply};

use crate::bodies::{empty_reply, json_reply, sent};
use crate::forms::{ToJson, merged};
use crate::lists::list;
use crate::refusals::{malformed, no_memory, refused};
use hook_rules::{write_hooks, write_protection};
use http_wire::Reply;
use lake_base::outside::NoMemory;
use lake_base::{Digest, Sequence, Text};
use lake_calls::{CallReply, Done};
use lake_values::{HookRules, Protection};
use setting_forms::text_of;
use std::alloc::Global;
use std::mem;

/// The reply that is sent of what a client is told: its status, its content type and its body. `close` is false in it.
/// An object's body is moved; all else is the compact text of JSON, or an id.
///
/// | told | status | content type | body |
/// |---|---|---|---|
/// | the bytes of an object | 200 | its own, where a head can hold it | the bytes |
/// | a branch was made | 201 | `text/plain` | the commit id |
/// | something is gone or set | 204 | none | none |
/// | anything else was done | 200, or 201 where it was made | `application/json` | its form |
/// | a refusal | its own | `application/json` | `{"message":..}` with its text |
/// | no memory was left | 507 | `application/json` | `{"message":"out of memory"}` |
///
/// A content type is visible ASCII and blanks, so that it stands in a head as it is. An object's own that is empty, or
/// holds another byte, gives way to `application/octet-stream`. Refused only where no memory is left.
pub fn print(alloc: Global, reply: CallReply) -> Result<Reply, NoMemory>
    ensures printed { IfOk result (λ sent. sent ≡ printed_reply reply) }
    ensures visible { IfOk result (λ sent. list_all is_visible sent.content_type ≡ true) }
{
    let sent = printed(alloc, reply)?;
    Ok(sent)
}

// The reply, by what was told.
fn printed(alloc: Global, reply: CallReply) -> Result<Reply, NoMemory>
    ensures { IfOk result (λ sent. sent ≡ printed_reply reply) }
{
    match reply {
        CallReply::Done(told) => print_done(alloc, told),
        CallReply::Refused(refusal) => refused(alloc, &refusal),
        CallReply::Malformed(refusal) => malformed(alloc, &refusal),
        CallReply::NoMemory => no_memory(alloc),
    }
}

// The reply of a call that was done. An object's body is taken out of what is told.
fn print_done(alloc: Global, mut told: Done) -> Result<Reply, NoMemory>
    ensures { IfOk result (λ reply. reply ≡ done_reply told) }
{
    match &mut told {
        Done::Repositories {
            repositories,
            has_more,
        } => list(alloc, repositories.as_slice(), *has_more),
        Done::RepositoryCreated(repository) => value(alloc, 201, repository),
        Done::Branches { branches, has_more } => list(alloc, branches.as_slice(), *has_more),
        Done::BranchCreated(id) => id_alone(alloc, id),
        Done::Branch(branch) => value(alloc, 200, branch),
        Done::BranchDeleted => Ok(empty_reply(alloc)),
        Done::BranchReset => Ok(empty_reply(alloc)),
        Done::Tags { tags, has_more } => list(alloc, tags.as_slice(), *has_more),
        Done::TagCreated(tag) => value(alloc, 201, tag),
        Done::Tag(tag) => value(alloc, 200, tag),
        Done::TagDeleted => Ok(empty_reply(alloc)),
        Done::Uploaded(object) => value(alloc, 201, object),
        Done::Linked(object) => value(alloc, 201, object),
        Done::ObjectDeleted => Ok(empty_reply(alloc)),
        Done::Copied(object) => value(alloc, 201, object),
        Done::Object { content_type, body } => {
            let content_type = mem::replace(content_type, Text::of(String::new(alloc)));
            let body = mem::replace(body, Sequence::of(Vec::new(alloc)));
            object(alloc, content_type, body)
        }
        Done::Statistics(object) => value(alloc, 200, object),
        Done::Listing(page) => list(alloc, page.items.as_slice(), page.has_more),
        Done::Committed(commit) => value(alloc, 201, commit),
        Done::Merged(id) => merge(alloc, id),
        Done::Reverted(commit) => value(alloc, 201, commit),
        Done::CherryPicked(commit) => value(alloc, 201, commit),
        Done::Log { commits, has_more } => list(alloc, commits.as_slice(), *has_more),
        Done::Commit(commit) => value(alloc, 200, commit),
        Done::Protection(protection) => protection_set(alloc, protection),
        Done::ProtectionSet => Ok(empty_reply(alloc)),
        Done::Hooks(hooks) => hooks_set(alloc, hooks),
        Done::HooksSet => Ok(empty_reply(alloc)),
    }
}

// The reply of what has a form as JSON.
fn value<T: ToJson>(alloc: Global, status: u16, told: &T) -> Result<Reply, NoMemory>
    ensures { IfOk result (λ reply. reply ≡ json_reply status (T.form told.now)) }
{
    let value = told.to_json(alloc)?;
    json_reply(alloc, status, &value)
}

// The id of the commit that a new branch leads to.
fn id_alone(alloc: Global, id: &Digest) -> Result<Reply, NoMemory>
    ensures { IfOk result (λ reply. reply ≡ done_reply (Done.BranchCreated id.now)) }
{
    let text = id.hex(alloc)?;
    sent(alloc, 201, "text/plain", Sequence::of(text.into_vec()))
}

// The commit that a merge made.
fn merge(alloc: Global, id: &Digest) -> Result<Reply, NoMemory>
    ensures { IfOk result (λ reply. reply ≡ done_reply (Done.Merged id.now)) }
{
    let value = merged(alloc, id)?;
    json_reply(alloc, 200, &value)
}

// An object's bytes under its content type.
fn object(alloc: Global, content_type: Text, body: Sequence<u8>) -> Result<Reply, NoMemory>
    ensures { IfOk result (λ reply. reply ≡ done_reply (Done.Object content_type body)) }
{
    let content_type = object_type(alloc, content_type)?;
    Ok(Reply {
        status: 200,
        content_type,
        body,
        close: false,
    })
}

// The content type under which an object is sent.
fn object_type(alloc: Global, content_type: Text) -> Result<Text, NoMemory>
    ensures { IfOk result (λ text. text ≡ object_type content_type) }
{
    if stands_in_head(content_type.as_slice()) {
        Ok(content_type)
    } else {
        text_of(alloc, "application/octet-stream")
    }
}

// Whether a content type is one that a head can hold.
fn stands_in_head(content_type: &[u8]) -> bool
    ensures { result ≡ stands_in_head content_type.now }
{
    !content_type.is_empty() && are_visible(content_type)
}

// Whether each byte is visible ASCII or a blank.
fn are_visible(bytes: &[u8]) -> bool
    ensures { result ≡ list_all is_visible bytes.now }
{
    bytes.iter().all(|byte| is_visible(*byte))
}

// Whether a byte is visible ASCII or a blank.
fn is_visible(byte: u8) -> bool
    ensures { result ≡ is_visible byte }
{
    32 <= byte && byte <= 126
}

// The patterns of a repository.
fn protection_set(alloc: Global, protection: &Protection) -> Result<Reply, NoMemory>
    ensures { IfOk result (λ reply. reply ≡ done_reply (Done.Protection protection.now)) }
{
    let body = write_protection(alloc, protection)?;
    sent(alloc, 200, "application/json", Sequence::of(body))
}

// Its hooks.
fn hooks_set(alloc: Global, hooks: &HookRules) -> Result<Reply, NoMemory>
    ensures { IfOk result (λ reply. reply ≡ done_reply (Done.Hooks hooks.now)) }
{
    let body = write_hooks(alloc, hooks)?;
    sent(alloc, 200, "application/json", Sequence::of(body))
}
