//! The call of a line of words.
ghost use Rattle.std.specs.Prelude.{◌≡◌, map, IfOk, option_map};
ghost use Rattle.lakectl_verbs.specs.UsageSteps.{IsUsed};
ghost use Rattle.lakectl_verbs.specs.ReadWords.{value_seen, given_seen};
ghost use Rattle.lakectl_verbs.specs.VerbCommands.{words_seen};
ghost use Rattle.lakectl_sent.specs.SentViews.{message_seen};
ghost use Rattle.lakectl_sent.specs.UriPlaces.{place_seen, place_number};
ghost use Rattle.lakectl_shown.specs.ShownReplies.{shown_of};
ghost use Rattle.lakectl_words.specs.WireRequests.{body_file_of, save_of, layout_of, call_for, call_of};

use crate::fields::{request_for, text_of};
use http_wire::{Reply, Request};
use lake_base::{NoMemory, Text};
use lakectl_sent::place::Place;
use lakectl_sent::uris::place_number;
use lakectl_sent::{Message, message_of};
use lakectl_shown::{Layout, Shown, show};
use lakectl_verbs::{Given, UsageFault, Value, Verb, read, read_words};
use std::alloc::Global;

/// What a line of words asks for: the request that is sent, and what the program does beside.
#[derive(Debug, Drop)]
pub struct WireCall {
    /// Its field `Host` is `localhost`, until `with_host` puts another in.
    pub request: Request,
    /// The file whose bytes are the body, which `with_body` puts in.
    pub body_file: Option<Text>,
    /// The file that the body of the reply is written to.
    pub save: Option<Text>,
    /// How the reply is shown.
    pub layout: Layout,
}

// The words as texts.
fn texts_of<'a>(alloc: Global, words: &'a [Text]) -> Result<Vec<&'a str>, NoMemory>
    ensures { IfOk result (λ texts. words_seen texts.items ≡ words.now) }
{
    let mut texts = Vec::with_capacity(alloc, words.len())?;
    for word in words {
        texts.push(word.as_str())?;
    }
    Ok(texts)
}

// A text, owned, where there is one.
fn owned(alloc: Global, text: Option<&str>) -> Result<Option<Text>, NoMemory>
    ensures { IfOk result (λ t. t ≡ option_map (λ s. s.now) text.entry) }
{
    match text {
        Some(text) => Ok(Some(text_of(alloc, text)?)),
        None => Ok(None),
    }
}

// The file whose bytes are the body.
fn body_file_of<'a>(verb: Verb, values: &[Value<'a>]) -> Option<&'a str>
    ensures { option_map (λ name. name.now) result ≡ body_file_of verb (map value_seen values.now) }
{
    match verb {
        Verb::FsUpload => read::text_of(values, "source"),
        _ => None,
    }
}

// The file that the body of the reply is written to.
fn save_of<'a>(verb: Verb, values: &[Value<'a>]) -> Option<&'a str>
    ensures { option_map (λ name. name.now) result ≡ save_of verb (map value_seen values.now) }
{
    match verb {
        Verb::FsDownload => read::text_of(values, "file"),
        _ => None,
    }
}

// How the reply is shown.
fn layout_of(alloc: Global, verb: Verb, at: Place<'_>) -> Result<Layout, NoMemory>
    ensures { IfOk result (λ layout. layout ≡ layout_of verb (place_seen at.entry)) }
{
    let layout = match verb {
        Verb::RepoCreate => Layout::RepoCreate,
        Verb::RepoList => Layout::RepoList,
        Verb::BranchCreate => return branch_layout(alloc, at.reference),
        Verb::BranchList => Layout::BranchList,
        Verb::BranchShow => Layout::BranchShow,
        Verb::BranchDelete => Layout::BranchDelete,
        Verb::BranchReset => Layout::BranchReset,
        Verb::BranchRevert => Layout::BranchRevert,
        Verb::TagCreate => Layout::TagCreate,
        Verb::TagList => Layout::TagList,
        Verb::TagShow => Layout::TagShow,
        Verb::TagDelete => Layout::TagDelete,
        Verb::Commit => Layout::Commit,
        Verb::Log => Layout::Log,
        Verb::Merge => Layout::Merge,
        Verb::CherryPick => Layout::CherryPick,
        Verb::FsLs => Layout::FsLs,
        Verb::FsStat => Layout::FsStat,
        Verb::FsCat => Layout::FsCat,
        Verb::FsUpload => Layout::FsUpload,
        Verb::FsDownload => Layout::FsDownload,
        Verb::FsRm => Layout::FsRm,
        Verb::FsStage => Layout::FsStage,
    };
    Ok(layout)
}

// The layout of a branch that is made.
fn branch_layout(alloc: Global, name: &str) -> Result<Layout, NoMemory>
    ensures { IfOk result (λ layout. layout ≡ Layout.BranchCreate name.now) }
{
    Ok(Layout::BranchCreate {
        name: text_of(alloc, name)?,
    })
}

// The call of a command that was read.
fn call_for(
    alloc: Global,
    given: &Given<'_>,
    places: &[Place<'_>],
    message: Message,
) -> Result<WireCall, NoMemory>
    ensures { IfOk result (λ call. call
        ≡ call_for (given_seen given.now) (map place_seen places.now, message_seen message)) }
{
    let values = given.values.as_slice();
    let body_file = owned(alloc, body_file_of(given.verb, values))?;
    let save = owned(alloc, save_of(given.verb, values))?;
    let layout = layout_of(alloc, given.verb, place_number(places, 0))?;
    Ok(WireCall {
        request: request_for(alloc, given.user, message)?,
        body_file,
        save,
        layout,
    })
}

/// The call of a line of words: `[--user NAME] NOUN [VERB]`, and then the values of the verb's line in the table. The
/// faults come in this order, each exactly there:
///
/// | fault | where |
/// |---|---|
/// | Words | nothing follows `--user` |
/// | Value(`user`) | the user isn't 1 to 128 bytes of visible ASCII |
/// | NoCommand | no noun follows |
/// | Unknown | the noun, or the noun with its verb, isn't in the table |
/// | Words | the verb's simple command doesn't take the rest, or options are given that exclude each other |
/// | Uri | a URI hasn't just the parts that its command takes, or has an empty one; or two name two repositories |
/// | Value | the value of an option isn't of its kind: the first in the table's order |
///
/// NoMemory only where no memory is left.
pub fn request_of(alloc: Global, words: &[Text]) -> Result<WireCall, UsageFault>
    ensures { IsUsed (λ call. call) result (call_of words.now) }
{
    let texts = texts_of(alloc, words)?;
    let given = read_words(alloc, texts.as_slice())?;
    let (places, message) = message_of(alloc, given.verb, given.values.as_slice())?;
    Ok(call_for(alloc, &given, places.as_slice(), message)?)
}

/// What is shown of the reply to a call: a function of the command, the status and the body. `show` of `lakectl_shown`
/// has the table.
pub fn shown(alloc: Global, call: &WireCall, reply: &Reply) -> Result<Shown, NoMemory>
    ensures { IfOk result (λ shown. shown ≡ shown_of call.now.layout reply.now.status reply.now.body) }
{
    show(alloc, &call.layout, reply.status, reply.body.as_slice())
}
