//! Replies as they are shown.
ghost use Rattle.std.specs.Prelude.{◌≡◌, IfOk, option_map};
ghost use Rattle.std.specs.List.{list_all};
ghost use Rattle.lakectl_shown.specs.ShownReplies.{is_hex, is_id, branch_text};
ghost use Rattle.lakectl_shown.specs.ShownReplies.{nothing_of, out_of, no_reply, shown_text};
ghost use Rattle.lakectl_shown.specs.ShownReplies.{fault_status, fault_shown, shown_of};

use crate::form::Form;
use crate::json::object_text;
use crate::layout::{Layout, due_status};
use crate::pages::{Lines, page_text};
use lake_base::{NoMemory, Sequence};
use std::alloc::Global;

/// What is shown of a reply: bytes for the output, bytes for the errors, and the program's status.
#[derive(Debug, Drop)]
pub struct Shown {
    pub out: Sequence<u8>,
    pub err: Sequence<u8>,
    /// 0 where all went well; 1 for a refusal, and 7 for want of memory; 8 where the reply isn't one to the command.
    pub status: u8,
}

// Whether a byte is a hex digit of lower case.
fn is_hex(byte: u8) -> bool
    ensures { result ≡ is_hex byte }
{
    (48 <= byte && byte <= 57) || (97 <= byte && byte <= 102)
}

// Whether each byte is.
fn are_hex(bytes: &[u8]) -> bool
    ensures { result ≡ list_all is_hex bytes.now }
{
    bytes.iter().all(|byte| is_hex(*byte))
}

// Whether a body is a commit's id as text.
fn is_id(body: &[u8]) -> bool
    ensures { result ≡ is_id body.now }
{
    body.len() == 64 && are_hex(body)
}

// A branch that was made, with its commit's id.
fn branch_text(alloc: Global, name: &[u8], body: &[u8]) -> Result<Option<Vec<u8>>, NoMemory>
    ensures { IfOk result (λ text. option_map (λ bytes. bytes.items) text ≡ branch_text name.now body.now) }
{
    if !is_id(body) {
        return Ok(None);
    }
    let mut text = Vec::new(alloc);
    text.extend_from_slice(b"Created branch '")?;
    text.extend_from_slice(name)?;
    text.extend_from_slice(b"' ")?;
    text.extend_from_slice(body)?;
    text.extend_from_slice(b"\n")?;
    Ok(Some(text))
}

// Nothing is shown of an empty body.
fn nothing_of(alloc: Global, body: &[u8]) -> Option<Vec<u8>>
    ensures { option_map (λ bytes. bytes.items) result ≡ nothing_of body.now }
{
    if body.is_empty() {
        Some(Vec::new(alloc))
    } else {
        None
    }
}

// The bytes of an object.
fn copy_of(alloc: Global, body: &[u8]) -> Result<Vec<u8>, NoMemory>
    ensures { IfOk result (λ bytes. bytes.items ≡ body.now) }
{
    let mut bytes = Vec::new(alloc);
    bytes.extend_from_slice(body)?;
    Ok(bytes)
}

// What is shown of the body of a reply that says that all went well, where it is of the command's form.
fn out_of(alloc: Global, layout: &Layout, body: &[u8]) -> Result<Option<Vec<u8>>, NoMemory>
    ensures { IfOk result (λ text. option_map (λ bytes. bytes.items) text ≡ out_of layout.now body.now) }
{
    match layout {
        Layout::RepoCreate => object_text(alloc, body, Form::RepositoryMade),
        Layout::RepoList => page_text(alloc, Lines::Repositories, body),
        Layout::BranchCreate { name } => branch_text(alloc, name.as_slice(), body),
        Layout::BranchList => page_text(alloc, Lines::References, body),
        Layout::BranchShow => object_text(alloc, body, Form::ReferenceLine),
        Layout::BranchDelete => Ok(nothing_of(alloc, body)),
        Layout::BranchReset => Ok(nothing_of(alloc, body)),
        Layout::BranchRevert => object_text(alloc, body, Form::CommitMade),
        Layout::TagCreate => object_text(alloc, body, Form::TagMade),
        Layout::TagList => page_text(alloc, Lines::References, body),
        Layout::TagShow => object_text(alloc, body, Form::ReferenceLine),
        Layout::TagDelete => Ok(nothing_of(alloc, body)),
        Layout::Commit => object_text(alloc, body, Form::CommitMade),
        Layout::Log => page_text(alloc, Lines::Commits, body),
        Layout::Merge => object_text(alloc, body, Form::MergeMade),
        Layout::CherryPick => object_text(alloc, body, Form::CommitMade),
        Layout::FsLs => page_text(alloc, Lines::Objects, body),
        Layout::FsStat => object_text(alloc, body, Form::ObjectLines),
        Layout::FsCat => Ok(Some(copy_of(alloc, body)?)),
        Layout::FsUpload => object_text(alloc, body, Form::ObjectMade),
        Layout::FsDownload => Ok(Some(Vec::new(alloc))),
        Layout::FsRm => Ok(nothing_of(alloc, body)),
        Layout::FsStage => object_text(alloc, body, Form::ObjectMade),
    }
}

// Nothing is shown: it is no reply to the command.
fn no_reply(alloc: Global) -> Shown
    ensures { result ≡ no_reply }
{
    Shown {
        out: Sequence::of(Vec::new(alloc)),
        err: Sequence::of(Vec::new(alloc)),
        status: 8,
    }
}

// The text is shown.
fn shown_text(alloc: Global, text: Option<Vec<u8>>) -> Shown
    ensures { result ≡ shown_text (option_map (λ bytes. bytes.items) text) }
{
    match text {
        Some(text) => Shown {
            out: Sequence::of(text),
            err: Sequence::of(Vec::new(alloc)),
            status: 0,
        },
        None => no_reply(alloc),
    }
}

// The program's status after a refusal.
fn fault_status(status: u16) -> u8
    ensures { result ≡ fault_status status }
{
    if status == 507 { 7 } else { 1 }
}

// A refusal is shown with its message.
fn fault_text(alloc: Global, status: u16, message: &[u8]) -> Result<Shown, NoMemory>
    ensures { IfOk result (λ shown. shown ≡ fault_shown status (Some message.now)) }
{
    let digits = status.to_string(alloc)?;
    let mut text = Vec::new(alloc);
    text.extend_from_slice(b"Error: ")?;
    text.extend_from_slice(message)?;
    text.extend_from_slice(b" [")?;
    text.extend_from_slice(digits.as_bytes())?;
    text.extend_from_slice(b"]\n")?;
    Ok(Shown {
        out: Sequence::of(Vec::new(alloc)),
        err: Sequence::of(text),
        status: fault_status(status),
    })
}

// A refusal is shown with its message, where it has one.
fn fault_shown(alloc: Global, status: u16, message: Option<Vec<u8>>) -> Result<Shown, NoMemory>
    ensures { IfOk result (λ shown. shown ≡ fault_shown status (option_map (λ bytes. bytes.items) message)) }
{
    match message {
        Some(message) => fault_text(alloc, status, message.as_slice()),
        None => Ok(no_reply(alloc)),
    }
}

/// What is shown of a reply to a command, by the reply's status and body. A status of 400 or above shows the refusal's
/// message, with the status 1, or 7 for 507; the status that the command's route answers shows the body by its layout.
/// Where the body isn't of the form due, and for every other status, nothing is shown, with the status 8.
pub fn show(alloc: Global, layout: &Layout, status: u16, body: &[u8]) -> Result<Shown, NoMemory>
    ensures { IfOk result (λ shown. shown ≡ shown_of layout.now status body.now) }
{
    if status >= 400 {
        let message = object_text(alloc, body, Form::Fault)?;
        return fault_shown(alloc, status, message);
    }
    if status != due_status(layout) {
        return Ok(no_reply(alloc));
    }
    let text = out_of(alloc, layout, body)?;
    Ok(shown_text(alloc, text))
}
