//! Refusals: each has a status and a text, which is sent as the `message` of a JSON object.
ghost use Rattle.std.specs.Prelude.{◌≡◌, ◌++◌, IfOk, codes, decimal};
ghost use Rattle.api_replies.specs.PrintedReplies.{fault_reply};
ghost use Rattle.api_replies.specs.RefusalTexts.{told, parent_text, refusal_told, malformed_told, no_memory_told};
ghost use Rattle.api_replies.specs.ReplyForms.{id_text, fault_form};
ghost use Rattle.serde_json.specs.View.{view};

use crate::bodies::json_reply;
use crate::object::put_text;
use http_wire::Reply;
use lake_base::Digest;
use lake_base::outside::NoMemory;
use lake_calls::{FormRefusal, MissingParent, Refusal};
use serde_json::{Map, Value};
use std::alloc::Global;

// The reply of a refused call.
pub(crate) fn refused(alloc: Global, refusal: &Refusal) -> Result<Reply, NoMemory>
    ensures { IfOk result (λ reply. reply ≡ fault_reply (refusal_told refusal.now)) }
{
    match refusal {
        Refusal::NoRepo(repo) => named(alloc, 404, "repository not found: ", repo.as_str()),
        Refusal::NoRef(name) => named(alloc, 404, "reference not found: ", name.as_str()),
        Refusal::NoParent(missing) => no_parent(alloc, missing),
        Refusal::NoPath(path) => named(alloc, 404, "path not found: ", path.as_str()),
        Refusal::NoNote => fault(alloc, 404, "no such setting"),
        Refusal::Exists(name) => named(alloc, 409, "already exists: ", name.as_str()),
        Refusal::DefaultBranch => fault(alloc, 400, "default branch can't be deleted"),
        Refusal::Protected(rule) => {
            numbered(alloc, 403, "branch protected by rule ", *rule as u64)
        }
        Refusal::NoChanges => fault(alloc, 400, "no changes"),
        Refusal::Dirty(path) => named(alloc, 400, "uncommitted changes: ", path.as_str()),
        Refusal::Conflicts(total) => numbered(alloc, 409, "conflicts: ", *total),
        Refusal::HookDenied(rule) => numbered(alloc, 412, "denied by hook rule ", *rule as u64),
        Refusal::NeedsParentNumber => fault(alloc, 400, "parent number needed"),
        Refusal::Expired(id) => with_id(alloc, 410, "commit expired: ", id),
        Refusal::Gone(path) => named(alloc, 410, "object gone: ", path.as_str()),
        Refusal::NotHeld(path) => named(alloc, 422, "object held outside: ", path.as_str()),
        Refusal::TooManyTries => fault(alloc, 423, "too many tries"),
        Refusal::Lost(path) => named(alloc, 500, "object lost: ", path.as_str()),
        Refusal::Damaged(path) => named(alloc, 500, "object damaged: ", path.as_str()),
        Refusal::NameClash(id) => with_id(alloc, 500, "two contents for name ", id),
        Refusal::BlockFault => fault(alloc, 503, "block store failed"),
        Refusal::StoreFault => fault(alloc, 503, "store failed"),
        Refusal::Stopped => fault(alloc, 503, "store stopped"),
        Refusal::HistoryFull => fault(alloc, 503, "history full"),
    }
}

// The reply to a request of no form that is read.
pub(crate) fn malformed(alloc: Global, refusal: &FormRefusal) -> Result<Reply, NoMemory>
    ensures { IfOk result (λ reply. reply ≡ fault_reply (malformed_told refusal.now)) }
{
    match refusal {
        FormRefusal::NoRoute => fault(alloc, 404, "no such route"),
        FormRefusal::MethodNotAllowed => fault(alloc, 405, "method not allowed"),
        FormRefusal::Missing(name) => named(alloc, 400, "missing: ", name.as_str()),
        FormRefusal::BadValue(name) => named(alloc, 400, "bad value: ", name.as_str()),
        FormRefusal::BadBody => fault(alloc, 400, "bad body"),
        FormRefusal::BadRule { rule, field } => bad_rule(alloc, *rule, field.as_str()),
        FormRefusal::BadRules => fault(alloc, 400, "bad rules"),
    }
}

// The reply where no memory was left.
pub(crate) fn no_memory(alloc: Global) -> Result<Reply, NoMemory>
    ensures { IfOk result (λ reply. reply ≡ fault_reply no_memory_told) }
{
    fault(alloc, 507, "out of memory")
}

// The expression, or the commit, has no such parent.
fn no_parent(alloc: Global, missing: &MissingParent) -> Result<Reply, NoMemory>
    ensures { IfOk result (λ reply.
        reply ≡ fault_reply (told 404 (codes "no such parent: " ++ parent_text missing.now))) }
{
    match missing {
        MissingParent::OfExpression(text) => named(alloc, 404, "no such parent: ", text.as_str()),
        MissingParent::OfNumber(number) => numbered(alloc, 404, "no such parent: ", *number as u64),
    }
}

// The field of a rule is bad.
fn bad_rule(alloc: Global, rule: usize, field: &str) -> Result<Reply, NoMemory>
    ensures { IfOk result (λ reply.
        reply ≡ fault_reply (told 400 (codes "bad rule " ++ decimal rule ++ codes ": " ++ field.now))) }
{
    let front = format!(in alloc; "bad rule {rule}: ")?;
    named(alloc, 400, front.as_str(), field)
}

// A text that ends in a name.
fn named(alloc: Global, status: u16, front: &str, name: &str) -> Result<Reply, NoMemory>
    ensures { IfOk result (λ reply. reply ≡ fault_reply (told status (front.now ++ name.now))) }
{
    let message = format!(in alloc; "{front}{name}")?;
    fault(alloc, status, message.as_str())
}

// A text that ends in a number.
fn numbered(alloc: Global, status: u16, front: &str, number: u64) -> Result<Reply, NoMemory>
    ensures { IfOk result (λ reply. reply ≡ fault_reply (told status (front.now ++ decimal number))) }
{
    let message = format!(in alloc; "{front}{number}")?;
    fault(alloc, status, message.as_str())
}

// A text that ends in an id.
fn with_id(alloc: Global, status: u16, front: &str, id: &Digest) -> Result<Reply, NoMemory>
    ensures { IfOk result (λ reply. reply ≡ fault_reply (told status (front.now ++ id_text id.now))) }
{
    let id = id.hex(alloc)?;
    named(alloc, status, front, id.as_str())
}

// An object with a message.
fn fault(alloc: Global, status: u16, message: &str) -> Result<Reply, NoMemory>
    ensures { IfOk result (λ reply. reply ≡ fault_reply (told status message.now)) }
{
    let value = message_value(alloc, message)?;
    json_reply(alloc, status, &value)
}

// The object.
fn message_value(alloc: Global, message: &str) -> Result<Value, NoMemory>
    ensures { IfOk result (λ value. view value ≡ fault_form message.now) }
{
    let mut object = Map::new(alloc);
    put_text(&mut object, alloc, "message", message)?;
    Ok(Value::Object(object))
}
