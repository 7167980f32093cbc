//! Lists, line by line.
ghost use Rattle.std.specs.Prelude.{◌≡◌, IfOk, map, option_map, option_and_then, codes};
ghost use Rattle.serde_json.specs.Find.{get, as_array};
ghost use Rattle.serde_json.specs.View.{view, items_view};
ghost use Rattle.lakectl_shown.specs.ShownReplies.{line_of, lines_of, is_true_at, more_of, page_of, page_text};

use crate::form::Form;
use crate::json::{is_of, json_of, shown_as, text_as};
use lake_base::NoMemory;
use serde_json::Value;
use std::alloc::Global;

/// What a list has.
#[derive(Clone, Copy, Debug, Drop)]
pub enum Lines {
    Repositories,
    References,
    Commits,
    /// Objects and prefixes.
    Objects,
}

// The line of an item, where it is of a form that the list has.
fn line_of(alloc: Global, lines: Lines, value: &Value) -> Result<Option<Vec<u8>>, NoMemory>
    ensures { IfOk result (λ line. option_map (λ bytes. bytes.items) line ≡ line_of lines (view value.now)) }
{
    match lines {
        Lines::Repositories => shown_as(alloc, value, Form::RepositoryLine),
        Lines::References => shown_as(alloc, value, Form::ReferenceLine),
        Lines::Commits => shown_as(alloc, value, Form::CommitLines),
        Lines::Objects => object_line(alloc, value),
    }
}

// The line of an object or of a prefix.
fn object_line(alloc: Global, value: &Value) -> Result<Option<Vec<u8>>, NoMemory>
    ensures { IfOk result (λ line. option_map (λ bytes. bytes.items) line ≡ line_of Lines.Objects (view value.now)) }
{
    if is_of(value, Form::ObjectLine) {
        return Ok(Some(text_as(alloc, value, Form::ObjectLine)?));
    }
    shown_as(alloc, value, Form::PrefixLine)
}

// The lines of all items, where each has one.
fn lines_of(alloc: Global, lines: Lines, items: &[Value]) -> Result<Option<Vec<u8>>, NoMemory>
    ensures { IfOk result (λ text. option_map (λ bytes. bytes.items) text ≡ lines_of lines (items_view items.now)) }
{
    let mut out = Vec::new(alloc);
    for item in items {
        let Some(line) = line_of(alloc, lines, item)? else {
            return Ok(None);
        };
        out.extend_from_slice(line.as_slice())?;
    }
    Ok(Some(out))
}

// Whether a key is there and true.
fn is_true_at(value: &Value, name: &str) -> bool
    ensures { result ≡ is_true_at name.now (view value.now) }
{
    match value.get(name).and_then(Value::as_bool) {
        Some(truth) => truth,
        None => false,
    }
}

// The line behind a page, where the value is what is told of one.
fn more_of(alloc: Global, pagination: &Value) -> Result<Option<Vec<u8>>, NoMemory>
    ensures { IfOk result (λ text. option_map (λ bytes. bytes.items) text ≡ more_of (view pagination.now)) }
{
    if !is_of(pagination, Form::Page) {
        return Ok(None);
    }
    if !is_true_at(pagination, "has_more") {
        return Ok(Some(Vec::new(alloc)));
    }
    Ok(Some(text_as(alloc, pagination, Form::Page)?))
}

// The line behind the page that a list has.
fn more_in(alloc: Global, page: &Value) -> Result<Option<Vec<u8>>, NoMemory>
    ensures { IfOk result (λ text. option_map (λ bytes. bytes.items) text
        ≡ option_and_then more_of (get (codes "pagination") (view page.now))) }
{
    match page.get("pagination") {
        Some(pagination) => more_of(alloc, pagination),
        None => Ok(None),
    }
}

// The lines of the items that a list has.
fn rows_in(alloc: Global, lines: Lines, page: &Value) -> Result<Option<Vec<u8>>, NoMemory>
    ensures { IfOk result (λ text. option_map (λ bytes. bytes.items) text
        ≡ option_and_then (lines_of lines) (option_and_then as_array (get (codes "results") (view page.now)))) }
{
    match page.get("results").and_then(Value::as_array) {
        Some(items) => lines_of(alloc, lines, items.as_slice()),
        None => Ok(None),
    }
}

// The lines of a list, and the line behind them.
fn page_of(alloc: Global, lines: Lines, page: &Value) -> Result<Option<Vec<u8>>, NoMemory>
    ensures { IfOk result (λ text. option_map (λ bytes. bytes.items) text ≡ page_of lines (view page.now)) }
{
    let Some(more) = more_in(alloc, page)? else {
        return Ok(None);
    };
    let Some(mut rows) = rows_in(alloc, lines, page)? else {
        return Ok(None);
    };
    rows.extend_from_slice(more.as_slice())?;
    Ok(Some(rows))
}

/// The same of a body.
pub(crate) fn page_text(
    alloc: Global,
    lines: Lines,
    body: &[u8],
) -> Result<Option<Vec<u8>>, NoMemory>
    ensures { IfOk result (λ text. option_map (λ bytes. bytes.items) text ≡ page_text lines body.now) }
{
    match json_of(alloc, body)? {
        Some(page) => page_of(alloc, lines, &page),
        None => Ok(None),
    }
}
