//! Routes: a method at a path.
ghost use Rattle.std.specs.Prelude.{◌≡◌};
ghost use Rattle.api_routes.specs.FormSteps.{IsRead};
ghost use Rattle.api_routes.specs.RouteTable.{get_route, post_route, put_route, delete_route, route_at};
ghost use Rattle.api_routes.specs.RouteTable.{seen_found, found_route};

use crate::fault::FormFault;
use crate::paths::{ApiPath, place_of};
use lake_calls::FormRefusal;

/// A method at a path of repositories, branches or tags.
#[derive(Clone, Copy, Debug)]
pub enum NamesRoute {
    ListRepositories,
    CreateRepository,
    ListBranches,
    CreateBranch,
    GetBranch,
    DeleteBranch,
    ResetBranch,
    ListTags,
    CreateTag,
    GetTag,
    DeleteTag,
}

/// A method at a path of objects.
#[derive(Clone, Copy, Debug)]
pub enum ObjectRoute {
    Upload,
    Link,
    Delete,
    Copy,
    Read,
    Stat,
    List,
}

/// A method at a path of commits.
#[derive(Clone, Copy, Debug)]
pub enum HeadRoute {
    Commit,
    Merge,
    Revert,
    CherryPick,
    Log,
    GetCommit,
}

/// A method at a path of settings.
#[derive(Clone, Copy, Debug)]
pub enum SettingRoute {
    GetProtection,
    SetProtection,
    GetHooks,
    SetHooks,
}

/// A method at a path of the interface.
#[derive(Clone, Copy, Debug)]
pub enum Route {
    Names(NamesRoute),
    Objects(ObjectRoute),
    Heads(HeadRoute),
    Settings(SettingRoute),
}

/// A route with the named segments of its path, as they were sent: the repository, the second and the third; each is
/// empty where the path has none.
#[derive(Clone, Copy, Debug)]
pub struct Found<'a> {
    pub route: Route,
    pub repo: &'a [u8],
    pub second: &'a [u8],
    pub third: &'a [u8],
}

// The route of GET at a path.
fn get_route(path: ApiPath) -> Option<Route>
    ensures { result ≡ get_route path }
{
    match path {
        ApiPath::Repositories => Some(Route::Names(NamesRoute::ListRepositories)),
        ApiPath::Branches => Some(Route::Names(NamesRoute::ListBranches)),
        ApiPath::Branch => Some(Route::Names(NamesRoute::GetBranch)),
        ApiPath::RefCommits => Some(Route::Heads(HeadRoute::Log)),
        ApiPath::RefObjects => Some(Route::Objects(ObjectRoute::Read)),
        ApiPath::RefStat => Some(Route::Objects(ObjectRoute::Stat)),
        ApiPath::RefList => Some(Route::Objects(ObjectRoute::List)),
        ApiPath::Commit => Some(Route::Heads(HeadRoute::GetCommit)),
        ApiPath::Tags => Some(Route::Names(NamesRoute::ListTags)),
        ApiPath::Tag => Some(Route::Names(NamesRoute::GetTag)),
        ApiPath::Protection => Some(Route::Settings(SettingRoute::GetProtection)),
        ApiPath::Hooks => Some(Route::Settings(SettingRoute::GetHooks)),
        _ => None,
    }
}

// The route of POST at a path.
fn post_route(path: ApiPath) -> Option<Route>
    ensures { result ≡ post_route path }
{
    match path {
        ApiPath::Repositories => Some(Route::Names(NamesRoute::CreateRepository)),
        ApiPath::Branches => Some(Route::Names(NamesRoute::CreateBranch)),
        ApiPath::BranchCommits => Some(Route::Heads(HeadRoute::Commit)),
        ApiPath::BranchObjects => Some(Route::Objects(ObjectRoute::Upload)),
        ApiPath::BranchCopy => Some(Route::Objects(ObjectRoute::Copy)),
        ApiPath::BranchRevert => Some(Route::Heads(HeadRoute::Revert)),
        ApiPath::BranchCherryPick => Some(Route::Heads(HeadRoute::CherryPick)),
        ApiPath::Merge => Some(Route::Heads(HeadRoute::Merge)),
        ApiPath::Tags => Some(Route::Names(NamesRoute::CreateTag)),
        _ => None,
    }
}

// The route of PUT at a path.
fn put_route(path: ApiPath) -> Option<Route>
    ensures { result ≡ put_route path }
{
    match path {
        ApiPath::Branch => Some(Route::Names(NamesRoute::ResetBranch)),
        ApiPath::BranchObjects => Some(Route::Objects(ObjectRoute::Link)),
        ApiPath::Protection => Some(Route::Settings(SettingRoute::SetProtection)),
        ApiPath::Hooks => Some(Route::Settings(SettingRoute::SetHooks)),
        _ => None,
    }
}

// The route of DELETE at a path.
fn delete_route(path: ApiPath) -> Option<Route>
    ensures { result ≡ delete_route path }
{
    match path {
        ApiPath::Branch => Some(Route::Names(NamesRoute::DeleteBranch)),
        ApiPath::BranchObjects => Some(Route::Objects(ObjectRoute::Delete)),
        ApiPath::Tag => Some(Route::Names(NamesRoute::DeleteTag)),
        _ => None,
    }
}

// The route of a method at a path.
fn route_at(method: &str, path: ApiPath) -> Option<Route>
    ensures { result ≡ route_at method.now path }
{
    match method {
        "GET" => get_route(path),
        "POST" => post_route(path),
        "PUT" => put_route(path),
        "DELETE" => delete_route(path),
        _ => None,
    }
}

/// The route of a method and a path, with the path's named segments. It is refused as NoRoute where the interface has
/// no such path, else as MethodNotAllowed where the path takes other methods. It takes no memory.
pub fn find_route<'a>(method: &str, path: &'a [u8]) -> Result<Found<'a>, FormFault>
    ensures { IsRead seen_found result (found_route method.now path.now) }
{
    let Some(place) = place_of(path) else {
        return Err(FormFault::Refused(FormRefusal::NoRoute));
    };
    let Some(route) = route_at(method, place.path) else {
        return Err(FormFault::Refused(FormRefusal::MethodNotAllowed));
    };
    Ok(Found {
        route,
        repo: place.repo,
        second: place.second,
        third: place.third,
    })
}
