//! What a client is told of a refusal: of a step's, by what its call names; and of a new head's.
ghost use Rattle.std.specs.Prelude.{◌≡◌, [], None, IfOk, MatchOption, option_copied};
ghost use Rattle.lake_calls.specs.CallRefusals.{CallNames, told_of_head};
ghost use Rattle.lake_calls.specs.declared.reply.CallReply.TheVariants as reply;
ghost use Rattle.lake_calls.specs.declared.reply.MissingParent.TheVariants.{OfExpression};
ghost use Rattle.lake_calls.specs.declared.reply.Refusal.TheVariants as refusal;
ghost use Rattle.call_readings.specs.ToldFaults.{AreNames, IsFaultTold, IsTextTold, reference_text};

use lake_base::{NoMemory, Path, RepoName, Text, TryCopy};
use lake_calls::{CallReply, MissingParent, Refusal};
use lake_model::{HeadRefusal, Reference, StepFault};
use lake_values::CommitId;
use std::alloc::Global;
use std::marker::Model;

/// What refusals of a call may name: its repository; the branch or the tag, or what is to be made; the text of its
/// expression; its path; and the commit after which a log is to begin. A text is empty where the call has none.
#[derive(Drop)]
pub struct Names<'a, 'e> {
    pub repo: &'a RepoName,
    pub named: &'a str,
    pub expression: &'e str,
    pub path: Option<&'a Path>,
    pub after: Option<&'a CommitId>,
}

impl<'a, 'e> Model for Names<'a, 'e> {
    ghost use Rattle.std.specs.Prelude.{option_copied};
    ghost use Rattle.call_readings.specs.ToldFaults.{NamesValue};

    ghost Value = { NamesValue };

    ghost view = { λ n. record {
      repo = n.repo.now;
      named = n.named.now;
      expression = n.expression.now;
      path = option_copied n.path;
      after = option_copied n.after;
    } };
}

impl<'a> Names<'a, 'a> {
    /// Those of a call that names a repository alone. It takes no memory.
    pub fn of_repository(repo: &'a RepoName) -> Names<'a, 'a>
        ensures { result ≡ record { repo = repo.now; named = []; expression = []; path = None; after = None } }
    {
        Names::of_name(repo, "")
    }

    /// Those of one that names something of it: a branch, a tag, or what is to be made. It takes no memory.
    pub fn of_name(repo: &'a RepoName, named: &'a str) -> Names<'a, 'a>
        ensures { result ≡ record { repo = repo.now; named = named.now; expression = []; path = None; after = None } }
    {
        Names {
            repo,
            named,
            expression: "",
            path: None,
            after: None,
        }
    }
}

/// The reply to a step's fault, by what the call names, whose texts are copied: NoMemory also where no memory was left
/// for one. A reply without a text takes no memory.
pub fn refusal_reply(alloc: Global, names: &Names<'_, '_>, fault: StepFault) -> CallReply
    ensures { (call : CallNames) → AreNames names.now call → IsFaultTold call fault result }
{
    match fault {
        StepFault::Stopped => CallReply::Refused(Refusal::Stopped),
        StepFault::HistoryFull => CallReply::Refused(Refusal::HistoryFull),
        StepFault::NoRepo => no_repo(alloc, names.repo),
        StepFault::NoRef(which) => no_ref(alloc, names, which),
        StepFault::NoParent(_) => no_parent(alloc, names.expression),
        StepFault::NoNote => CallReply::Refused(Refusal::NoNote),
        StepFault::Exists => exists(alloc, names.named),
        StepFault::DefaultBranch => CallReply::Refused(Refusal::DefaultBranch),
        StepFault::Protected(pattern) => CallReply::Refused(Refusal::Protected(pattern)),
        StepFault::Changed { .. } => CallReply::Refused(Refusal::TooManyTries),
        StepFault::NoPath => no_path(alloc, names.path),
        StepFault::Expired(id) => CallReply::Refused(Refusal::Expired(id)),
        StepFault::NameClash { name, .. } => CallReply::Refused(Refusal::NameClash(name)),
        StepFault::StoreFault => CallReply::Refused(Refusal::StoreFault),
        StepFault::NoMemory => CallReply::NoMemory,
    }
}

// There is no such repository.
fn no_repo(alloc: Global, repo: &RepoName) -> CallReply
    ensures { IsTextTold (refusal.NoRepo repo.now) result }
{
    match repo.copy(alloc) {
        Ok(repo) => CallReply::Refused(Refusal::NoRepo(repo)),
        Err(_) => CallReply::NoMemory,
    }
}

// One of the references leads nowhere.
fn no_ref(alloc: Global, names: &Names<'_, '_>, which: Reference) -> CallReply
    ensures { IsTextTold (refusal.NoRef (reference_text names.now which)) result }
{
    match text_of_reference(alloc, names, which) {
        Ok(text) => CallReply::Refused(Refusal::NoRef(text)),
        Err(_) => CallReply::NoMemory,
    }
}

// The text of a reference.
fn text_of_reference(
    alloc: Global,
    names: &Names<'_, '_>,
    which: Reference,
) -> Result<Text, NoMemory>
    ensures { IfOk result (λ text. text ≡ reference_text names.now which) }
{
    match which {
        Reference::Named => text_of(alloc, names.named),
        Reference::Expression => text_of(alloc, names.expression),
        Reference::After => match names.after {
            Some(id) => id.hex(alloc),
            None => text_of(alloc, ""),
        },
    }
}

// A move of the expression finds no parent.
fn no_parent(alloc: Global, expression: &str) -> CallReply
    ensures { IsTextTold (refusal.NoParent (OfExpression expression.now)) result }
{
    match text_of(alloc, expression) {
        Ok(text) => CallReply::Refused(Refusal::NoParent(MissingParent::OfExpression(text))),
        Err(_) => CallReply::NoMemory,
    }
}

// The name is taken.
fn exists(alloc: Global, named: &str) -> CallReply
    ensures { IsTextTold (refusal.Exists named.now) result }
{
    match text_of(alloc, named) {
        Ok(text) => CallReply::Refused(Refusal::Exists(text)),
        Err(_) => CallReply::NoMemory,
    }
}

// Nothing stands at the path. No call is refused for a path that has none.
fn no_path(alloc: Global, path: Option<&Path>) -> CallReply
    ensures { MatchOption (option_copied path.entry) (result ≡ reply.NoMemory)
        (λ path. IsTextTold (refusal.NoPath path) result) }
{
    let Some(path) = path else {
        return CallReply::NoMemory;
    };
    match path.copy(alloc) {
        Ok(path) => CallReply::Refused(Refusal::NoPath(path)),
        Err(_) => CallReply::NoMemory,
    }
}

// A copy of a text.
fn text_of(alloc: Global, text: &str) -> Result<Text, NoMemory>
    ensures { IfOk result (λ copy. copy ≡ text.now) }
{
    let text = String::from_str(alloc, text)?;
    Ok(Text::of(text))
}

/// The reply to a new head that isn't made. It takes no memory.
pub fn head_refusal_reply(refused: HeadRefusal) -> CallReply
    ensures { result ≡ reply.Refused (told_of_head refused) }
{
    CallReply::Refused(match refused {
        HeadRefusal::Dirty(path) => Refusal::Dirty(path),
        HeadRefusal::NoChanges(_) => Refusal::NoChanges,
        HeadRefusal::Conflicts { paths: _, total } => Refusal::Conflicts(total),
        HeadRefusal::HookDenied(hook) => Refusal::HookDenied(hook),
    })
}
