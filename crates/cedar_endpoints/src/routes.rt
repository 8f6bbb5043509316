//! Endpoints.
ghost use Rattle.std.specs.Prelude.{◌≡◌};
ghost use Rattle.cedar_endpoints.specs.Routes.{route_of, posted, put, shown};

use crate::searches::Sought;

/// What other texts can be taken in place of.
#[derive(Clone, Copy, Debug, PartialEq, Eq)]
pub enum Replaced {
    /// The policies.
    Policies,
    /// The entities.
    Entities,
}

/// What a request asks for, by its method and its path.
#[derive(Clone, Copy, Debug, PartialEq, Eq)]
pub enum Route {
    /// A decision, as AuthZEN asks for it.
    Evaluation,
    /// Decisions, as AuthZEN asks for several at once.
    Evaluations,
    /// What is permitted, as AuthZEN searches for it.
    Search(Sought),
    /// A decision, as Cedar's JSON asks for it.
    Authorize,
    /// What is left of the policies, as Cedar's JSON asks for it.
    PartiallyAuthorize,
    /// Other policies or entities in place of these, where that is allowed.
    Reload(Replaced),
    /// Whether the service answers.
    Health,
    /// Where AuthZEN's endpoints are.
    Metadata,
    /// What is there for `POST` alone, with another method.
    PostOnly,
    /// What is there for `GET` and `HEAD` alone, with another method.
    GetOnly,
    /// What is there for `PUT` alone, with another method, where that is allowed.
    PutOnly,
    /// What is not there.
    Unknown,
}

/// What a request of this method and this path, which has no query, asks for.
pub fn route_of(method: &str, path: &str) -> Route
    ensures { result ≡ route_of method.now path.now }
{
    if path == "/access/v1/evaluation" {
        posted(Route::Evaluation, method)
    } else if path == "/access/v1/evaluations" {
        posted(Route::Evaluations, method)
    } else if path == "/access/v1/search/subject" {
        posted(Route::Search(Sought::Subject), method)
    } else if path == "/access/v1/search/action" {
        posted(Route::Search(Sought::Action), method)
    } else if path == "/access/v1/search/resource" {
        posted(Route::Search(Sought::Resource), method)
    } else if path == "/v1/authorize" {
        posted(Route::Authorize, method)
    } else if path == "/v1/partially-authorize" {
        posted(Route::PartiallyAuthorize, method)
    } else if path == "/v1/policies" {
        put(Replaced::Policies, method)
    } else if path == "/v1/entities" {
        put(Replaced::Entities, method)
    } else if path == "/healthz" {
        shown(Route::Health, method)
    } else if path == "/.well-known/authzen-configuration" {
        shown(Route::Metadata, method)
    } else {
        Route::Unknown
    }
}

fn posted(route: Route, method: &str) -> Route
    ensures { result ≡ posted route method.now }
{
    if method == "POST" {
        route
    } else {
        Route::PostOnly
    }
}

fn put(replaced: Replaced, method: &str) -> Route
    ensures { result ≡ put replaced method.now }
{
    if method == "PUT" {
        Route::Reload(replaced)
    } else {
        Route::PutOnly
    }
}

fn shown(route: Route, method: &str) -> Route
    ensures { result ≡ shown route method.now }
{
    if method == "GET" || method == "HEAD" {
        route
    } else {
        Route::GetOnly
    }
}
