//! A request as a call.
ghost use Rattle.std.specs.Prelude.{◌≡◌};
ghost use Rattle.api_routes.specs.FormSteps.{IsRead};
ghost use Rattle.api_routes.specs.RouteTable.{seen_found};
ghost use Rattle.api_forms.specs.CallForms.{routed_call, form_of_request, asked, IsAsked};

use crate::heads::head_call;
use crate::naming::naming_call;
use crate::settings::setting_call;
use api_objects::object_call;
use api_routes::{FormFault, Found, Route, find_route, split_target};
use http_wire::{Field, Request};
use lake_base::Sequence;
use lake_calls::Call;
use std::alloc::Global;

// The call of a route.
fn routed_call(
    alloc: Global,
    found: &Found<'_>,
    query: &[u8],
    fields: &[Field],
    body: Sequence<u8>,
) -> Result<Call, FormFault>
    ensures { IsRead (λ call. call) result (routed_call (seen_found found.now) query.now fields.now body) }
{
    match found.route {
        Route::Names(route) => Ok(Call::Names(naming_call(
            alloc,
            route,
            found,
            query,
            body.as_slice(),
        )?)),
        Route::Objects(route) => Ok(Call::Objects(object_call(
            alloc, route, found, query, fields, body,
        )?)),
        Route::Heads(route) => Ok(Call::Heads(head_call(
            alloc,
            route,
            found,
            query,
            fields,
            body.as_slice(),
        )?)),
        Route::Settings(route) => Ok(Call::Settings(setting_call(
            alloc,
            route,
            found,
            body.as_slice(),
        )?)),
    }
}

/// The call that a request asks for. Where its form is wrong it is refused for the first fault in this order: the path,
/// the method, the named segments, the query (in the order of the route's keys), the committer, the content type of an
/// upload, the body (in the order of its fields). The body of an upload is moved.
pub fn read_call(alloc: Global, request: Request) -> Result<Call, FormFault>
    ensures form { IsRead (λ call. call) result (form_of_request request) }
    ensures asked { IsAsked result (asked request) }
{
    let Request {
        method,
        target,
        fields,
        body,
        close: _,
    } = request;
    let (path, query) = split_target(target.as_slice());
    let found = find_route(method.as_str(), path)?;
    routed_call(alloc, &found, query, fields.as_slice(), body)
}
