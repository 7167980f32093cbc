//! Calls of repositories, branches and tags.
ghost use Rattle.std.specs.Prelude.{◌≡◌};
ghost use Rattle.serde_json.specs.View.{view};
ghost use Rattle.api_routes.specs.FormSteps.{IsRead};
ghost use Rattle.api_routes.specs.RouteTable.{seen_found};
ghost use Rattle.api_forms.specs.NamingForms.{list_repositories, new_repository, names_call, name_call};
ghost use Rattle.api_forms.specs.NamingForms.{new_name, default_branch_of, expression_field, reset_what, reset_call};
ghost use Rattle.api_forms.specs.NamingForms.{naming_call};

use api_bodies::body::{needed_text, object_body, text_field, text_of};
use api_routes::{
    FormFault, Found, NamesRoute, amount_in_query, as_expression, as_new_ref_name, as_path,
    as_repo, bad_value, ref_name_segment, repo_segment, text_or_empty,
};
use lake_base::RefName;
use lake_calls::{
    Expression, NameCall, NamesCall, NamingCall, NewNameCall, NewRepositoryCall, ResetCall,
};
use lake_values::ResetWhat;
use serde_json::Value;
use std::alloc::Global;

// A list of repositories is asked for.
fn list_repositories(alloc: Global, query: &[u8]) -> Result<NamingCall, FormFault>
    ensures { IsRead (λ call. call) result (list_repositories query.now) }
{
    let after = text_or_empty(alloc, query, "after")?;
    let amount = amount_in_query(alloc, query)?;
    Ok(NamingCall::ListRepositories { after, amount })
}

// The default branch that a body names.
fn default_branch_of(alloc: Global, object: &Value) -> Result<RefName, FormFault>
    ensures { IsRead (λ branch. branch) result (default_branch_of (view object.now)) }
{
    match text_field(alloc, object, "default_branch")? {
        Some(text) => as_new_ref_name(alloc, "default_branch", text.as_bytes()),
        None => as_new_ref_name(alloc, "default_branch", b"main"),
    }
}

// A repository is to be made. Its namespace is read and not kept.
fn new_repository(alloc: Global, body: &[u8]) -> Result<NewRepositoryCall, FormFault>
    ensures { IsRead (λ call. call) result (new_repository body.now) }
{
    let object = object_body(alloc, body)?;
    let name = as_repo(
        alloc,
        "name",
        needed_text(alloc, &object, "name")?.as_bytes(),
    )?;
    let default_branch = default_branch_of(alloc, &object)?;
    let _namespace = text_field(alloc, &object, "storage_namespace")?;
    Ok(NewRepositoryCall {
        name,
        default_branch,
    })
}

// A list of branches or of tags is asked for.
fn names_call(alloc: Global, repo: &[u8], query: &[u8]) -> Result<NamesCall, FormFault>
    ensures { IsRead (λ call. call) result (names_call repo.now query.now) }
{
    let repo = repo_segment(alloc, "r", repo)?;
    let after = text_or_empty(alloc, query, "after")?;
    let amount = amount_in_query(alloc, query)?;
    Ok(NamesCall {
        repo,
        after,
        amount,
    })
}

// A branch or a tag is asked for, or is to go.
fn name_call(alloc: Global, repo: &[u8], key: &str, name: &[u8]) -> Result<NameCall, FormFault>
    ensures { IsRead (λ call. call) result (name_call repo.now key.now name.now) }
{
    let repo = repo_segment(alloc, "r", repo)?;
    let name = ref_name_segment(alloc, key, name)?;
    Ok(NameCall { repo, name })
}

// The expression that a field must hold.
pub(crate) fn expression_field(
    alloc: Global,
    object: &Value,
    name: &str,
) -> Result<Expression, FormFault>
    ensures { IsRead (λ expression. expression) result (expression_field name.now (view object.now)) }
{
    let text = text_of(alloc, needed_text(alloc, object, name)?)?;
    as_expression(alloc, name, text)
}

// A branch or a tag is to be made: the fields of its name and of its source.
#[tactic(auto, using(crate::proofs::LimitLemmas::like_no_id))]
fn new_name(
    alloc: Global,
    repo: &[u8],
    name: &str,
    source: &str,
    body: &[u8],
) -> Result<NewNameCall, FormFault>
    ensures { IsRead (λ call. call) result (new_name repo.now name.now source.now body.now) }
{
    let repo = repo_segment(alloc, "r", repo)?;
    let object = object_body(alloc, body)?;
    let text = needed_text(alloc, &object, name)?;
    let name = as_new_ref_name(alloc, name, text.as_bytes())?;
    let source = expression_field(alloc, &object, source)?;
    Ok(NewNameCall { repo, name, source })
}

// What a reset of this type is to drop.
fn reset_what(alloc: Global, object: &Value) -> Result<ResetWhat, FormFault>
    ensures { IsRead (λ what. what) result (reset_what (view object.now)) }
{
    match needed_text(alloc, object, "type")? {
        "reset" => Ok(ResetWhat::All),
        "object" => {
            let text = needed_text(alloc, object, "path")?;
            Ok(ResetWhat::Object(as_path(alloc, "path", text.as_bytes())?))
        }
        "common_prefix" => {
            let text = needed_text(alloc, object, "path")?;
            Ok(ResetWhat::Prefix(text_of(alloc, text)?))
        }
        _ => Err(bad_value(alloc, "type")),
    }
}

// Changes of a branch are to go.
fn reset_call(
    alloc: Global,
    repo: &[u8],
    branch: &[u8],
    body: &[u8],
) -> Result<ResetCall, FormFault>
    ensures { IsRead (λ call. call) result (reset_call repo.now branch.now body.now) }
{
    let repo = repo_segment(alloc, "r", repo)?;
    let branch = ref_name_segment(alloc, "b", branch)?;
    let object = object_body(alloc, body)?;
    let what = reset_what(alloc, &object)?;
    Ok(ResetCall { repo, branch, what })
}

// The call of a route of repositories, branches and tags.
pub(crate) fn naming_call(
    alloc: Global,
    route: NamesRoute,
    found: &Found<'_>,
    query: &[u8],
    body: &[u8],
) -> Result<NamingCall, FormFault>
    ensures { IsRead (λ call. call) result (naming_call route (seen_found found.now) query.now body.now) }
{
    let repo = found.repo;
    let second = found.second;
    match route {
        NamesRoute::ListRepositories => list_repositories(alloc, query),
        NamesRoute::CreateRepository => {
            Ok(NamingCall::CreateRepository(new_repository(alloc, body)?))
        }
        NamesRoute::ListBranches => Ok(NamingCall::ListBranches(names_call(alloc, repo, query)?)),
        NamesRoute::CreateBranch => Ok(NamingCall::CreateBranch(new_name(
            alloc, repo, "name", "source", body,
        )?)),
        NamesRoute::GetBranch => Ok(NamingCall::GetBranch(name_call(alloc, repo, "b", second)?)),
        NamesRoute::DeleteBranch => {
            Ok(NamingCall::DeleteBranch(name_call(alloc, repo, "b", second)?))
        }
        NamesRoute::ResetBranch => {
            Ok(NamingCall::ResetBranch(reset_call(alloc, repo, second, body)?))
        }
        NamesRoute::ListTags => Ok(NamingCall::ListTags(names_call(alloc, repo, query)?)),
        NamesRoute::CreateTag => {
            Ok(NamingCall::CreateTag(new_name(alloc, repo, "id", "ref", body)?))
        }
        NamesRoute::GetTag => Ok(NamingCall::GetTag(name_call(alloc, repo, "t", second)?)),
        NamesRoute::DeleteTag => Ok(NamingCall::DeleteTag(name_call(alloc, repo, "t", second)?)),
    }
}
