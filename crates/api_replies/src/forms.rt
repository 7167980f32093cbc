//! What clients are told, as JSON.
ghost use Rattle.std.specs.Prelude.{◌≡◌, false, map, IfOk};
ghost use Rattle.serde_json.specs.Data.{Data};
ghost use Rattle.serde_json.specs.View.{view};
ghost use Rattle.serde_json.specs.Written.{has_float};
ghost use Rattle.api_replies.specs.ReplyForms.{checksum_text, address_text, statistics_form, prefix_form, merged_form};

use crate::metadata::metadata_value;
use crate::object::{put_number, put_text};
use lake_base::outside::NoMemory;
use lake_base::{Digest, Path, Text, TryCopy};
use lake_calls::{KnownCommit, NamedCommit, ObjectStatistics};
use lake_format::encoding::own_address;
use lake_model::RepoInfo;
use lake_pages::Item;
use lake_values::{Entry, Place};
use serde_json::{Map, Value, json};
use std::alloc::Global;

// What has a form as JSON.
pub(crate) trait ToJson {
    ghost form: { Self → Data };

    // The value of the form.
    fn to_json(&self, alloc: Global) -> Result<Value, NoMemory>
        ensures { IfOk result (λ value. view value ≡ form self.now) };

    // It holds no float, so that it has one text.
    ghost no_float: { (x : Self) → has_float (form x) ≡ false };
}

// The values of some items.
pub(crate) fn values<T: ToJson>(alloc: Global, items: &[T]) -> Result<Vec<Value>, NoMemory>
    ensures { IfOk result (λ list. map view list.items ≡ map T.form items.now) }
{
    let mut list = Vec::with_capacity(alloc, items.len())?;
    for item in items {
        list.push(item.to_json(alloc)?)?;
    }
    Ok(list)
}

impl ToJson for Digest {
    ghost use Rattle.api_replies.specs.ReplyForms.{id_form};
    ghost use Rattle.api_replies.specs.NoFloats.{id_no_float};

    ghost form = { id_form };

    ghost no_float = { id_no_float };

    fn to_json(&self, alloc: Global) -> Result<Value, NoMemory> {
        Ok(Value::try_from_str(alloc, self.hex(alloc)?.as_str())?)
    }
}

impl ToJson for ObjectStatistics {
    ghost use Rattle.api_replies.specs.ReplyForms.{statistics_form};
    ghost use Rattle.api_replies.specs.NoFloats.{statistics_no_float};

    ghost form = { λ object. statistics_form object.path object.entry };

    ghost no_float = { λ object. statistics_no_float object.path object.entry };

    fn to_json(&self, alloc: Global) -> Result<Value, NoMemory> {
        statistics(alloc, &self.path, &self.entry)
    }
}

impl ToJson for Item {
    ghost use Rattle.api_replies.specs.ReplyForms.{item_form};
    ghost use Rattle.api_replies.specs.NoFloats.{item_no_float};

    ghost form = { item_form };

    ghost no_float = { item_no_float };

    fn to_json(&self, alloc: Global) -> Result<Value, NoMemory> {
        match self {
            Item::Object { path, entry } => statistics(alloc, path, entry),
            Item::Prefix(prefix) => common_prefix(alloc, prefix.as_str()),
        }
    }
}

impl ToJson for KnownCommit {
    ghost use Rattle.api_replies.specs.ReplyForms.{commit_form};
    ghost use Rattle.api_replies.specs.NoFloats.{commit_no_float};

    ghost form = { commit_form };

    ghost no_float = { commit_no_float };

    fn to_json(&self, alloc: Global) -> Result<Value, NoMemory> {
        let commit = &self.record;
        let id = self.id.to_json(alloc)?;
        let meta_range = commit.meta_range.to_json(alloc)?;
        let metadata = metadata_value(alloc, &commit.metadata)?;
        let parents = values(alloc, commit.parents.as_slice())?;
        let mut object = Map::new(alloc);
        put_text(&mut object, alloc, "committer", commit.committer.as_str())?;
        put_number(&mut object, alloc, "creation_date", commit.date)?;
        put_number(&mut object, alloc, "generation", commit.generation)?;
        serde_json::put(&mut object, alloc, "id", id)?;
        put_text(&mut object, alloc, "message", commit.message.as_str())?;
        serde_json::put(&mut object, alloc, "meta_range_id", meta_range)?;
        serde_json::put(&mut object, alloc, "metadata", metadata)?;
        serde_json::put(&mut object, alloc, "parents", Value::Array(parents))?;
        Ok(Value::Object(object))
    }
}

impl ToJson for NamedCommit {
    ghost use Rattle.api_replies.specs.ReplyForms.{reference_form};
    ghost use Rattle.api_replies.specs.NoFloats.{reference_no_float};

    ghost form = { reference_form };

    ghost no_float = { reference_no_float };

    fn to_json(&self, alloc: Global) -> Result<Value, NoMemory> {
        let id = self.commit.to_json(alloc)?;
        Ok(json!(in alloc; {"commit_id": id, "id": self.name.as_str()})?)
    }
}

impl ToJson for RepoInfo {
    ghost use Rattle.api_replies.specs.ReplyForms.{repository_form};
    ghost use Rattle.api_replies.specs.NoFloats.{repository_no_float};

    ghost form = { repository_form };

    ghost no_float = { repository_no_float };

    fn to_json(&self, alloc: Global) -> Result<Value, NoMemory> {
        let value = json!(in alloc; {
            "creation_date": self.created,
            "default_branch": self.default_branch.as_str(),
            "id": self.name.as_str(),
        })?;
        Ok(value)
    }
}

// What is known of the object at a path.
fn statistics(alloc: Global, path: &Path, entry: &Entry) -> Result<Value, NoMemory>
    ensures { IfOk result (λ value. view value ≡ statistics_form path.now entry.now) }
{
    let checksum = checksum(alloc, &entry.place)?;
    let address = address(alloc, &entry.place)?;
    let metadata = metadata_value(alloc, &entry.metadata)?;
    let mut object = Map::new(alloc);
    put_text(&mut object, alloc, "checksum", checksum.as_str())?;
    put_text(
        &mut object,
        alloc,
        "content_type",
        entry.content_type.as_str(),
    )?;
    serde_json::put(&mut object, alloc, "metadata", metadata)?;
    put_number(&mut object, alloc, "mtime", entry.mtime)?;
    put_text(&mut object, alloc, "path", path.as_str())?;
    put_text(&mut object, alloc, "path_type", "object")?;
    put_text(&mut object, alloc, "physical_address", address.as_str())?;
    put_number(&mut object, alloc, "size_bytes", entry.size)?;
    Ok(Value::Object(object))
}

// What paths have in common up to a delimiter.
fn common_prefix(alloc: Global, prefix: &str) -> Result<Value, NoMemory>
    ensures { IfOk result (λ value. view value ≡ prefix_form prefix.now) }
{
    Ok(json!(in alloc; {"path": prefix, "path_type": "common_prefix"})?)
}

// The commit that a merge made.
pub(crate) fn merged(alloc: Global, id: &Digest) -> Result<Value, NoMemory>
    ensures { IfOk result (λ value. view value ≡ merged_form id.now) }
{
    let id = id.to_json(alloc)?;
    Ok(json!(in alloc; {"reference": id})?)
}

// The checksum of the object at a place.
fn checksum(alloc: Global, place: &Place) -> Result<Text, NoMemory>
    ensures { IfOk result (λ text. text ≡ checksum_text place.now) }
{
    match place {
        Place::Own { digest, .. } => digest.hex(alloc),
        Place::External { checksum, .. } => checksum.copy(alloc),
    }
}

// Its address.
fn address(alloc: Global, place: &Place) -> Result<Text, NoMemory>
    ensures { IfOk result (λ text. text ≡ address_text place.now) }
{
    match place {
        Place::Own { number, .. } => own_address(alloc, *number),
        Place::External { at, .. } => at.copy(alloc),
    }
}
