//! Calls of objects.
ghost use Rattle.std.specs.Prelude.{◌≡◌, ◌≤◌, length, true, IfOk};
ghost use Rattle.serde_json.specs.View.{view};
ghost use Rattle.api_routes.specs.FormSteps.{IsRead};
ghost use Rattle.api_routes.specs.RouteTable.{seen_found};
ghost use Rattle.api_objects.specs.ObjectForms.{is_address, address_of, checksum_of, linked_type_of, source_of};
ghost use Rattle.api_objects.specs.ObjectForms.{upload_body, upload_call, link_call, delete_call, copy_call, look_call};
ghost use Rattle.api_objects.specs.ObjectForms.{page_query, list_call, object_call};

use api_bodies::body::{
    needed_text, needed_whole, object_body, short_text, text_field, text_of, whole_field,
};
use api_bodies::head_fields::content_type_of;
use api_bodies::metadata::metadata_of;
use api_routes::{
    FormFault, Found, ObjectRoute, amount_in_query, as_expression, as_path, bad_value,
    expression_segment, path_in_query, ref_name_segment, repo_segment, text_or_empty,
};
use http_wire::Field;
use lake_base::{Sequence, Text};
use lake_calls::{
    CopyCall, DeleteCall, Expression, FormRefusal, LinkCall, ListCall, ObjectCall, ReadCall,
    UploadCall,
};
use lake_pages::PageQuery;
use serde_json::Value;
use std::alloc::Global;

// The body of an upload, within its limit; else a bad body. It is moved.
fn upload_body(body: Sequence<u8>) -> Result<Sequence<u8>, FormFault>
    ensures body { IsRead (λ bytes. bytes) result (upload_body body) }
    ensures short { IfOk result (λ bytes. length bytes ≤ 67108864) }
{
    if body.as_slice().len() > 67_108_864 {
        Err(FormFault::Refused(FormRefusal::BadBody))
    } else {
        Ok(body)
    }
}

// A body is to become an object. It is moved.
fn upload_call(
    alloc: Global,
    found: &Found<'_>,
    query: &[u8],
    fields: &[Field],
    body: Sequence<u8>,
) -> Result<UploadCall, FormFault>
    ensures { IsRead (λ call. call) result (upload_call (seen_found found.now) query.now fields.now body) }
{
    let repo = repo_segment(alloc, "r", found.repo)?;
    let branch = ref_name_segment(alloc, "b", found.second)?;
    let path = path_in_query(alloc, query, "path")?;
    let content_type = content_type_of(alloc, fields)?;
    let body = upload_body(body)?;
    Ok(UploadCall {
        repo,
        branch,
        path,
        content_type,
        body,
    })
}

// Whether a text is an address outside.
fn is_address(text: &str) -> bool
    ensures { result ≡ is_address text.now }
{
    if text.is_empty() {
        return false;
    }
    if text.len() > 2048 {
        return false;
    }
    !text.as_bytes().starts_with("lake://".as_bytes())
}

// The address outside of an object; it is missing, or a bad value.
fn address_of(alloc: Global, object: &Value) -> Result<Text, FormFault>
    ensures address { IsRead (λ text. text) result (address_of (view object.now)) }
    ensures outside { IfOk result (λ text. is_address text ≡ true) }
{
    let text = needed_text(alloc, object, "physical_address")?;
    if !is_address(text) {
        return Err(bad_value(alloc, "physical_address"));
    }
    text_of(alloc, text)
}

// The checksum of an object outside; it is missing, or a bad value.
fn checksum_of(alloc: Global, object: &Value) -> Result<Text, FormFault>
    ensures checksum { IsRead (λ text. text) result (checksum_of (view object.now)) }
    ensures short { IfOk result (λ text. length text ≤ 128) }
{
    let text = needed_text(alloc, object, "checksum")?;
    if text.len() > 128 {
        return Err(bad_value(alloc, "checksum"));
    }
    text_of(alloc, text)
}

// The content type of an object outside; without one it is that of any bytes.
fn linked_type_of(alloc: Global, object: &Value) -> Result<Text, FormFault>
    ensures content_type { IsRead (λ text. text) result (linked_type_of (view object.now)) }
    ensures short { IfOk result (λ text. length text ≤ 255) }
{
    match short_text(alloc, object, "content_type", 255)? {
        Some(text) => text_of(alloc, text),
        None => text_of(alloc, "application/octet-stream"),
    }
}

// An object outside is to stand at a path.
#[tactic(auto, using(crate::proofs::OutsideLemmas::is_outside))]
fn link_call(
    alloc: Global,
    found: &Found<'_>,
    query: &[u8],
    body: &[u8],
) -> Result<LinkCall, FormFault>
    ensures { IsRead (λ call. call) result (link_call (seen_found found.now) query.now body.now) }
{
    let repo = repo_segment(alloc, "r", found.repo)?;
    let branch = ref_name_segment(alloc, "b", found.second)?;
    let path = path_in_query(alloc, query, "path")?;
    let object = object_body(alloc, body)?;
    let address = address_of(alloc, &object)?;
    let checksum = checksum_of(alloc, &object)?;
    let size = needed_whole(alloc, &object, "size_bytes")?;
    let mtime = whole_field(alloc, &object, "mtime")?;
    let content_type = linked_type_of(alloc, &object)?;
    let metadata = metadata_of(alloc, &object)?;
    Ok(LinkCall {
        repo,
        branch,
        path,
        address,
        checksum,
        size,
        mtime,
        content_type,
        metadata,
    })
}

// What stands at a path is to go.
fn delete_call(alloc: Global, found: &Found<'_>, query: &[u8]) -> Result<DeleteCall, FormFault>
    ensures { IsRead (λ call. call) result (delete_call (seen_found found.now) query.now) }
{
    let repo = repo_segment(alloc, "r", found.repo)?;
    let branch = ref_name_segment(alloc, "b", found.second)?;
    let path = path_in_query(alloc, query, "path")?;
    Ok(DeleteCall { repo, branch, path })
}

// The source of a copy, where it is there.
fn source_of(alloc: Global, object: &Value) -> Result<Option<Expression>, FormFault>
    ensures { IsRead (λ source. source) result (source_of (view object.now)) }
{
    match text_field(alloc, object, "src_ref")? {
        Some(text) => {
            let text = text_of(alloc, text)?;
            Ok(Some(as_expression(alloc, "src_ref", text)?))
        }
        None => Ok(None),
    }
}

// An entry is to stand at another path.
fn copy_call(
    alloc: Global,
    found: &Found<'_>,
    query: &[u8],
    body: &[u8],
) -> Result<CopyCall, FormFault>
    ensures { IsRead (λ call. call) result (copy_call (seen_found found.now) query.now body.now) }
{
    let repo = repo_segment(alloc, "r", found.repo)?;
    let branch = ref_name_segment(alloc, "b", found.second)?;
    let path = path_in_query(alloc, query, "dest_path")?;
    let object = object_body(alloc, body)?;
    let text = needed_text(alloc, &object, "src_path")?;
    let source_path = as_path(alloc, "src_path", text.as_bytes())?;
    let source = source_of(alloc, &object)?;
    Ok(CopyCall {
        repo,
        branch,
        path,
        source_path,
        source,
    })
}

// What stands at a path of an expression is asked for.
fn look_call(alloc: Global, found: &Found<'_>, query: &[u8]) -> Result<ReadCall, FormFault>
    ensures { IsRead (λ call. call) result (look_call (seen_found found.now) query.now) }
{
    let repo = repo_segment(alloc, "r", found.repo)?;
    let at = expression_segment(alloc, "ref", found.second)?;
    let path = path_in_query(alloc, query, "path")?;
    Ok(ReadCall { repo, at, path })
}

// What a page is to list.
fn page_query(alloc: Global, query: &[u8]) -> Result<PageQuery, FormFault>
    ensures { IsRead (λ page. page) result (page_query query.now) }
{
    let prefix = text_or_empty(alloc, query, "prefix")?;
    let after = text_or_empty(alloc, query, "after")?;
    let amount = amount_in_query(alloc, query)?;
    let delimiter = text_or_empty(alloc, query, "delimiter")?;
    Ok(PageQuery {
        prefix,
        after,
        amount,
        delimiter,
    })
}

// A page of what an expression leads to is asked for.
fn list_call(alloc: Global, found: &Found<'_>, query: &[u8]) -> Result<ListCall, FormFault>
    ensures { IsRead (λ call. call) result (list_call (seen_found found.now) query.now) }
{
    let repo = repo_segment(alloc, "r", found.repo)?;
    let at = expression_segment(alloc, "ref", found.second)?;
    let query = page_query(alloc, query)?;
    Ok(ListCall { repo, at, query })
}

/// The call of a route of objects, or the first refusal of its form: of its segments, its query, its fields and its
/// body, in this order. The body of an upload is moved.
pub fn object_call(
    alloc: Global,
    route: ObjectRoute,
    found: &Found<'_>,
    query: &[u8],
    fields: &[Field],
    body: Sequence<u8>,
) -> Result<ObjectCall, FormFault>
    ensures { IsRead (λ call. call) result
        (object_call route (seen_found found.now) query.now fields.now body) }
{
    match route {
        ObjectRoute::Upload => Ok(ObjectCall::Upload(upload_call(
            alloc, found, query, fields, body,
        )?)),
        ObjectRoute::Link => Ok(ObjectCall::Link(link_call(alloc, found, query, body.as_slice())?)),
        ObjectRoute::Delete => Ok(ObjectCall::Delete(delete_call(alloc, found, query)?)),
        ObjectRoute::Copy => Ok(ObjectCall::Copy(copy_call(alloc, found, query, body.as_slice())?)),
        ObjectRoute::Read => Ok(ObjectCall::Read(look_call(alloc, found, query)?)),
        ObjectRoute::Stat => Ok(ObjectCall::Stat(look_call(alloc, found, query)?)),
        ObjectRoute::List => Ok(ObjectCall::List(list_call(alloc, found, query)?)),
    }
}
