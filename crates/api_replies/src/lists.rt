//! Lists, as pages that a client goes through one after another.
ghost use Rattle.std.specs.Prelude.{◌≡◌, ℕ, List, map, IfOk, string_bytes};
ghost use Rattle.serde_json.specs.View.{view};
ghost use Rattle.api_replies.specs.PrintedReplies.{json_reply};
ghost use Rattle.api_replies.specs.ReplyForms.{next_offset, list_form, page_form, pagination_form};

use crate::bodies::json_reply;
use crate::forms::{ToJson, values};
use crate::object::{put_number, put_text};
use http_wire::Reply;
use lake_base::outside::NoMemory;
use lake_calls::{KnownCommit, NamedCommit};
use lake_model::RepoInfo;
use lake_pages::Item;
use serde_json::{Map, Value};
use std::alloc::Global;

// What stands in lists: it has a name, behind which the next page begins.
pub(crate) trait Listed: ToJson {
    ghost name: { Self → List ℕ };

    fn name(&self, alloc: Global) -> Result<String, NoMemory>
        ensures { IfOk result (λ text. string_bytes text ≡ name self.now) };
}

// The reply of a list.
pub(crate) fn list<T: Listed>(alloc: Global, items: &[T], has_more: bool) -> Result<Reply, NoMemory>
    ensures { IfOk result (λ reply. reply ≡ json_reply 200 (list_form T.form T.name has_more items.now)) }
{
    let offset = offset_behind(alloc, items, has_more)?;
    let results = values(alloc, items)?;
    let value = page(alloc, offset.as_str(), has_more, results)?;
    json_reply(alloc, 200, &value)
}

// The name of the last item where more is left, else nothing.
fn offset_behind<T: Listed>(alloc: Global, items: &[T], has_more: bool) -> Result<String, NoMemory>
    ensures { IfOk result (λ text. string_bytes text ≡ next_offset T.name has_more items.now) }
{
    if !has_more {
        return Ok(String::new(alloc));
    }
    match items.last() {
        Some(item) => item.name(alloc),
        None => Ok(String::new(alloc)),
    }
}

// The values of a page, behind what is told of the page.
fn page(alloc: Global, offset: &str, has_more: bool, results: Vec<Value>) -> Result<Value, NoMemory>
    ensures { IfOk result (λ value. view value ≡ page_form offset.now has_more (map view results.items)) }
{
    let pagination = pagination(alloc, offset, has_more, results.len())?;
    let mut object = Map::new(alloc);
    serde_json::put(&mut object, alloc, "pagination", pagination)?;
    serde_json::put(&mut object, alloc, "results", Value::Array(results))?;
    Ok(Value::Object(object))
}

// What is told of a page.
fn pagination(alloc: Global, offset: &str, has_more: bool, count: usize) -> Result<Value, NoMemory>
    ensures { IfOk result (λ value. view value ≡ pagination_form offset.now has_more count) }
{
    let mut object = Map::new(alloc);
    serde_json::put(&mut object, alloc, "has_more", Value::Bool(has_more))?;
    put_number(&mut object, alloc, "max_per_page", 1000)?;
    put_text(&mut object, alloc, "next_offset", offset)?;
    put_number(&mut object, alloc, "results", count as u64)?;
    Ok(Value::Object(object))
}

impl Listed for RepoInfo {
    ghost name = { λ repository. repository.name };

    fn name(&self, alloc: Global) -> Result<String, NoMemory> {
        Ok(String::from_str(alloc, self.name.as_str())?)
    }
}

impl Listed for NamedCommit {
    ghost name = { λ named. named.name };

    fn name(&self, alloc: Global) -> Result<String, NoMemory> {
        Ok(String::from_str(alloc, self.name.as_str())?)
    }
}

impl Listed for KnownCommit {
    ghost use Rattle.api_replies.specs.ReplyForms.{id_text};

    ghost name = { λ commit. id_text commit.id };

    fn name(&self, alloc: Global) -> Result<String, NoMemory> {
        let id = self.id.hex(alloc)?;
        Ok(String::from_str(alloc, id.as_str())?)
    }
}

impl Listed for Item {
    ghost use Rattle.lake_pages.specs.Listing.{item_name};

    ghost name = { item_name };

    fn name(&self, alloc: Global) -> Result<String, NoMemory> {
        match self {
            Item::Object { path, .. } => Ok(String::from_str(alloc, path.as_str())?),
            Item::Prefix(prefix) => Ok(String::from_str(alloc, prefix.as_str())?),
        }
    }
}
