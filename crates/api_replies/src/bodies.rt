//! Replies by what their body is: JSON, another text, or none.
ghost use Rattle.std.specs.Prelude.{◌≡◌, false, IfOk};
ghost use Rattle.serde_json.specs.View.{view};
ghost use Rattle.serde_json.specs.Written.{has_float};
ghost use Rattle.api_replies.specs.PrintedReplies.{sent, json_reply, empty_reply};

use http_wire::Reply;
use lake_base::outside::NoMemory;
use lake_base::{Sequence, Text};
use serde_json::Value;
use setting_forms::text_of;
use std::alloc::Global;

// A body under its content type. The body is moved.
pub(crate) fn sent(
    alloc: Global,
    status: u16,
    content_type: &str,
    body: Sequence<u8>,
) -> Result<Reply, NoMemory>
    ensures { IfOk result (λ reply. reply ≡ sent status content_type.now body) }
{
    Ok(Reply {
        status,
        content_type: text_of(alloc, content_type)?,
        body,
        close: false,
    })
}

// JSON as its compact text.
pub(crate) fn json_reply(alloc: Global, status: u16, value: &Value) -> Result<Reply, NoMemory>
    requires { has_float (view value.now) ≡ false }
    ensures { IfOk result (λ reply. reply ≡ json_reply status (view value.now)) }
{
    let body = value.to_vec(alloc)?;
    sent(alloc, status, "application/json", Sequence::of(body))
}

// No body, and no content type. It takes no memory.
pub(crate) fn empty_reply(alloc: Global) -> Reply
    ensures { result ≡ empty_reply }
{
    Reply {
        status: 204,
        content_type: Text::of(String::new(alloc)),
        body: Sequence::of(Vec::new(alloc)),
        close: false,
    }
}
