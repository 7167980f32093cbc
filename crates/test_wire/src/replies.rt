//! Replies as they are sent: the status, the content type and the body.
use api_replies::print;
use lake_calls::{CallReply, FormRefusal, MissingParent, Refusal};
use std::alloc::Global;
use std::process::Abort;
use std::test::Fail;
use test_values::{id, path, repo_name, text};

// What is sent, on one line.
pub(crate) fn told(alloc: Global, reply: CallReply) -> Result<String, Fail> {
    let sent = print(alloc, reply)?;
    let body = str::from_utf8(sent.body.as_slice())?;
    Ok(format!(in alloc; "{} {} {body}", sent.status, sent.content_type.as_str())?)
}

// Refusals with names: of repositories, references and paths.
fn with_names(alloc: Global) -> Result<Vec<Refusal>, Fail> {
    let mut list = Vec::new(alloc);
    list.push(Refusal::NoRepo(repo_name(alloc, "demo")?))?;
    list.push(Refusal::NoRef(text(alloc, "main~\"")?))?;
    list.push(Refusal::NoPath(path(alloc, "a\n/\u{e9}")?))?;
    list.push(Refusal::Exists(text(alloc, "dev")?))?;
    list.push(Refusal::Dirty(path(alloc, "b")?))?;
    list.push(Refusal::Gone(path(alloc, "c")?))?;
    list.push(Refusal::NotHeld(path(alloc, "d")?))?;
    list.push(Refusal::Lost(path(alloc, "e")?))?;
    list.push(Refusal::Damaged(path(alloc, "f")?))?;
    Ok(list)
}

// Refusals with numbers and ids.
fn with_numbers(alloc: Global) -> Result<Vec<Refusal>, Fail> {
    let mut list = Vec::new(alloc);
    list.push(Refusal::NoParent(MissingParent::OfExpression(text(alloc, "main^3")?)))?;
    list.push(Refusal::NoParent(MissingParent::OfNumber(4294967295)))?;
    list.push(Refusal::Protected(0))?;
    list.push(Refusal::Conflicts(18446744073709551615))?;
    list.push(Refusal::HookDenied(255))?;
    list.push(Refusal::Expired(id(b'a')))?;
    list.push(Refusal::NameClash(id(b'b')))?;
    Ok(list)
}

// Refusals of one text.
fn plain(alloc: Global) -> Result<Vec<Refusal>, Fail> {
    let mut list = Vec::new(alloc);
    list.push(Refusal::NoNote)?;
    list.push(Refusal::DefaultBranch)?;
    list.push(Refusal::NoChanges)?;
    list.push(Refusal::NeedsParentNumber)?;
    list.push(Refusal::TooManyTries)?;
    list.push(Refusal::BlockFault)?;
    list.push(Refusal::StoreFault)?;
    list.push(Refusal::Stopped)?;
    list.push(Refusal::HistoryFull)?;
    Ok(list)
}

// Refusals of forms.
fn malformed(alloc: Global) -> Result<Vec<FormRefusal>, Fail> {
    let mut list = Vec::new(alloc);
    list.push(FormRefusal::NoRoute)?;
    list.push(FormRefusal::MethodNotAllowed)?;
    list.push(FormRefusal::Missing(text(alloc, "path")?))?;
    list.push(FormRefusal::BadValue(text(alloc, "amount")?))?;
    list.push(FormRefusal::BadBody)?;
    list.push(FormRefusal::BadRule {
        rule: 3,
        field: text(alloc, "key")?,
    })?;
    list.push(FormRefusal::BadRules)?;
    Ok(list)
}

// Status and message of those with names.
static NAMES: [&str; 9] = [
    "404 application/json {\"message\":\"repository not found: demo\"}",
    "404 application/json {\"message\":\"reference not found: main~\\\"\"}",
    "404 application/json {\"message\":\"path not found: a\\n/\u{e9}\"}",
    "409 application/json {\"message\":\"already exists: dev\"}",
    "400 application/json {\"message\":\"uncommitted changes: b\"}",
    "410 application/json {\"message\":\"object gone: c\"}",
    "422 application/json {\"message\":\"object held outside: d\"}",
    "500 application/json {\"message\":\"object lost: e\"}",
    "500 application/json {\"message\":\"object damaged: f\"}",
];

// Of those with numbers and ids.
static NUMBERS: [&str; 7] = [
    "404 application/json {\"message\":\"no such parent: main^3\"}",
    "404 application/json {\"message\":\"no such parent: 4294967295\"}",
    "403 application/json {\"message\":\"branch protected by rule 0\"}",
    "409 application/json {\"message\":\"conflicts: 18446744073709551615\"}",
    "412 application/json {\"message\":\"denied by hook rule 255\"}",
    "410 application/json {\"message\":\"commit expired: \
    6161616161616161616161616161616161616161616161616161616161616161\"}",
    "500 application/json {\"message\":\"two contents for name \
    6262626262626262626262626262626262626262626262626262626262626262\"}",
];

// Of those of one text.
static PLAIN: [&str; 9] = [
    "404 application/json {\"message\":\"no such setting\"}",
    "400 application/json {\"message\":\"default branch can't be deleted\"}",
    "400 application/json {\"message\":\"no changes\"}",
    "400 application/json {\"message\":\"parent number needed\"}",
    "423 application/json {\"message\":\"too many tries\"}",
    "503 application/json {\"message\":\"block store failed\"}",
    "503 application/json {\"message\":\"store failed\"}",
    "503 application/json {\"message\":\"store stopped\"}",
    "503 application/json {\"message\":\"history full\"}",
];

// Of those of forms.
static MALFORMED: [&str; 7] = [
    "404 application/json {\"message\":\"no such route\"}",
    "405 application/json {\"message\":\"method not allowed\"}",
    "400 application/json {\"message\":\"missing: path\"}",
    "400 application/json {\"message\":\"bad value: amount\"}",
    "400 application/json {\"message\":\"bad body\"}",
    "400 application/json {\"message\":\"bad rule 3: key\"}",
    "400 application/json {\"message\":\"bad rules\"}",
];

// Each refusal is told as the table has it.
fn are_told(
    rt: &impl Abort,
    alloc: Global,
    refusals: Vec<Refusal>,
    table: &[&str],
) -> Result<(), Fail> {
    assert_eq!(rt; refusals.len(), table.len());
    for (refusal, due) in refusals.into_iter().zip(table) {
        let line = told(alloc, CallReply::Refused(refusal))?;
        assert_eq!(rt; line.as_str(), *due);
    }
    Ok(())
}

#[test]
fn each_refusal_has_its_status_and_text(rt: HostRuntime) -> Result<(), Fail> {
    are_told(&rt, rt.alloc(), with_names(rt.alloc())?, &NAMES)?;
    are_told(&rt, rt.alloc(), with_numbers(rt.alloc())?, &NUMBERS)?;
    are_told(&rt, rt.alloc(), plain(rt.alloc())?, &PLAIN)?;
    let line = told(rt.alloc(), CallReply::NoMemory)?;
    assert_eq!(rt;
        line.as_str(),
        "507 application/json {\"message\":\"out of memory\"}"
    );
    Ok(())
}

#[test]
fn each_form_refusal_has_its_status_and_text(rt: HostRuntime) -> Result<(), Fail> {
    for (refusal, due) in malformed(rt.alloc())?.into_iter().zip(&MALFORMED) {
        let line = told(rt.alloc(), CallReply::Malformed(refusal))?;
        assert_eq!(rt; line.as_str(), *due);
    }
    Ok(())
}
