//! The words of a command become the bytes that are sent.
ghost use Rattle.std.specs.Prelude.{◌≡◌, ◌<◌, ◌^◌, ℕ, Err, IfOk, IsSome, length, option_map};
ghost use Rattle.block_store.specs.Blocks.{FailsByFault};
ghost use Rattle.lakectl_words.specs.WireRequests.{addressed, request_text};
ghost use Rattle.lakectl_commands.specs.Sendings.{IsCommand, IsFilled, IsSending, NamesFile};

use crate::files::Files;
use crate::texts::{no_file_shown, usage_shown};
use http_wire::Request;
use lake_base::{NoMemory, Sequence, Text, Trouble};
use lakectl_shown::{Layout, Shown};
use lakectl_verbs::UsageFault;
use lakectl_words::{WireCall, request_of, request_text, with_body, with_host};
use std::alloc::Global;

// No body has so many bytes.
const BODY_LIMIT: usize = 10_000_000_000_000_000_000;

/// What a command sends, how the reply is shown, and the file that its body is saved to.
#[derive(Debug, Drop)]
pub struct Sending {
    pub text: Sequence<u8>,
    pub layout: Layout,
    pub save: Option<Text>,
}

// The call of words, or what is shown of their fault.
fn command_of(alloc: Global, words: &[Text]) -> Result<Result<WireCall, Shown>, NoMemory>
    ensures { IfOk result (IsCommand words.now) }
{
    match request_of(alloc, words) {
        Ok(call) => Ok(Ok(call)),
        Err(UsageFault::NoMemory) => Err(NoMemory),
        Err(fault) => Ok(Err(usage_shown(alloc, &fault)?)),
    }
}

// The request with the bytes of the file that is named, or what is shown where that isn't there.
fn filled<F: Files>(
    alloc: Global,
    files: &mut F,
    request: Request,
    file: Option<Text>,
) -> Result<Result<Request, Shown>, Trouble>
    ensures filled { IfOk result (IsFilled (F.files files.old) file request) }
    ensures named { result ≡ Err Trouble.Failed → IsSome file }
    ensures files { F.files files.new ≡ F.files files.old }
    ensures cause { FailsByFault (F.faults files.old) (F.faults files.new) result }
{
    let Some(name) = file else {
        return Ok(Ok(request));
    };
    match files.read_file(&name)? {
        Some(bytes) => Ok(Ok(with_body(alloc, request, Sequence::of(bytes))?)),
        None => Ok(Err(no_file_shown(alloc, &name)?)),
    }
}

// The bytes of a request for a host.
fn text_for(alloc: Global, host: &Text, request: Request) -> Result<Sequence<u8>, NoMemory>
    ensures text { IfOk result (λ text. text ≡ request_text (addressed host.now request)) }
    ensures body { IfOk result (λ _. length request.body < 10 ^ 19) }
{
    if request.body.as_slice().len() >= BODY_LIMIT {
        return Err(NoMemory);
    }
    let request = with_host(alloc, request, host)?;
    request_text(alloc, &request)
}

/// What words send to a host, or what is shown where they send nothing.
pub fn prepare<F: Files>(
    alloc: Global,
    files: &mut F,
    host: &Text,
    words: &[Text],
) -> Result<Result<Sending, Shown>, Trouble>
    ensures sends { IfOk result (IsSending host.now words.now (F.files files.old)) }
    ensures named { result ≡ Err Trouble.Failed → NamesFile words.now }
    ensures files { F.files files.new ≡ F.files files.old }
    ensures cause { FailsByFault (F.faults files.old) (F.faults files.new) result }
{
    let WireCall {
        request,
        body_file,
        save,
        layout,
    } = match command_of(alloc, words)? {
        Ok(call) => call,
        Err(shown) => return Ok(Err(shown)),
    };
    let request = match filled(alloc, files, request, body_file)? {
        Ok(request) => request,
        Err(shown) => return Ok(Err(shown)),
    };
    let text = text_for(alloc, host, request)?;
    Ok(Ok(Sending { text, layout, save }))
}
