//! What a request wants.

ghost use Rattle.std.specs.Prelude.{◌≡◌, IfOk, option_map};
ghost use Rattle.cat_routes.specs.Table.{shown};
ghost use Rattle.cat_rest.specs.Faults.{Answers};
ghost use Rattle.cat_rest.specs.Served.{IsServed};
ghost use Rattle.cat_rest.specs.Wanted.{methods_of, allows, query_start, path_of, query_of, trees_by, tree_by, contents_by, read_at, with_route, wanted};

use crate::changes::{
    assign_at, collect_at, commit_at, create_at, delete_at, merge_at, transplant_at,
};
use crate::reads::{
    content_at, contents_at, entries_at, history_at, reference_at, references_at, requested_at,
};
use crate::refused::refused;
use crate::wanted::Wanted;
use cat_http::Request;
use cat_model::ask::Ask;
use cat_model::refusal::{Allowed, Refusal, Refused};
use cat_routes::{Found, Path, Route, Routes};
use std::alloc::Global;

fn methods_of(route: Route) -> Allowed
    ensures { result ≡ methods_of route }
{
    match route {
        Route::Config => Allowed::Get,
        Route::Trees => Allowed::GetPost,
        Route::Tree => Allowed::GetPutDelete,
        Route::Entries => Allowed::Get,
        Route::History => Allowed::Get,
        Route::Contents => Allowed::GetPost,
        Route::Content => Allowed::Get,
        Route::Commit => Allowed::Post,
        Route::Merge => Allowed::Post,
        Route::Transplant => Allowed::Post,
        Route::Sweep => Allowed::Post,
        Route::Checkpoint => Allowed::Post,
    }
}

fn allows(methods: Allowed, method: &[u8]) -> bool
    ensures { result ≡ allows methods method.now }
{
    match methods {
        Allowed::Get => method == b"GET".as_slice(),
        Allowed::Post => method == b"POST".as_slice(),
        Allowed::GetPost => method == b"GET".as_slice() || method == b"POST".as_slice(),
        Allowed::GetPutDelete => method == b"GET".as_slice()
            || method == b"PUT".as_slice()
            || method == b"DELETE".as_slice(),
    }
}

fn query_start(target: &[u8]) -> Option<usize>
    ensures { result ≡ query_start target.now }
{
    target.iter().position(|byte| *byte == b'?')
}

// The path of a target: what stands before its query.
fn path_of(target: &[u8]) -> &[u8]
    ensures { result.now ≡ path_of target.now }
{
    match query_start(target) {
        Some(end) => &target[..end],
        None => target,
    }
}

// The query of a target: what follows its first `?`.
fn query_of(target: &[u8]) -> &[u8]
    ensures { result.now ≡ query_of target.now }
{
    match query_start(target) {
        Some(end) => &target[end + 1..],
        None => &[],
    }
}

fn trees_by(alloc: Global, request: &Request<'_>) -> Result<Wanted, Refused>
    ensures { Answers result (trees_by request.now) }
{
    let query = query_of(request.target());
    if request.method() == b"GET".as_slice() {
        return references_at(alloc, query);
    }
    create_at(alloc, query, request.body())
}

fn tree_by(alloc: Global, part: Option<&str>, request: &Request<'_>) -> Result<Wanted, Refused>
    ensures { Answers result (tree_by (option_map (λ s. s.now) part.entry) request.now) }
{
    let method = request.method();
    let query = query_of(request.target());
    if method == b"GET".as_slice() {
        return reference_at(alloc, part);
    }
    if method == b"PUT".as_slice() {
        return assign_at(alloc, part, query, request.body());
    }
    delete_at(alloc, part, query)
}

fn contents_by(alloc: Global, part: Option<&str>, request: &Request<'_>) -> Result<Wanted, Refused>
    ensures { Answers result (contents_by (option_map (λ s. s.now) part.entry) request.now) }
{
    if request.method() == b"GET".as_slice() {
        return contents_at(alloc, part, query_of(request.target()));
    }
    requested_at(alloc, part, request.body())
}

fn read_at(alloc: Global, found: Found<'_>, request: &Request<'_>) -> Result<Wanted, Refused>
    ensures { Answers result (read_at (shown found.entry) request.now) }
{
    let part = found.reference;
    match found.route {
        Route::Config => Ok(Wanted::Read(Ask::Config)),
        Route::Trees => trees_by(alloc, request),
        Route::Tree => tree_by(alloc, part, request),
        Route::Entries => entries_at(alloc, part, query_of(request.target())),
        Route::History => history_at(alloc, part, query_of(request.target())),
        Route::Contents => contents_by(alloc, part, request),
        Route::Content => content_at(alloc, part, found.key),
        Route::Commit => commit_at(alloc, part, request.body()),
        Route::Merge => merge_at(alloc, part, request.body()),
        Route::Transplant => transplant_at(alloc, part, request.body()),
        Route::Sweep => collect_at(alloc, request.body()),
        Route::Checkpoint => Ok(Wanted::Checkpoint),
    }
}

fn with_route(alloc: Global, found: Found<'_>, request: &Request<'_>) -> Result<Wanted, Refused>
    ensures { Answers result (with_route (shown found.entry) request.now) }
{
    let methods = methods_of(found.route);
    if !allows(methods, request.method()) {
        return Err(refused(Refusal::WrongMethod(methods)));
    }
    if request.is_encoded() {
        return Err(refused(Refusal::Encoding));
    }
    read_at(alloc, found, request)
}

#[tactic(auto, unfolding(crate::specs::Wanted::wanted))]
fn wanted(alloc: Global, routes: &Routes, request: &Request<'_>) -> Result<Wanted, Refused>
    ensures { Answers result (wanted request.now) }
{
    let Ok(path) = Path::new(alloc, path_of(request.target())) else {
        return Err(refused(Refusal::NoMemory));
    };
    match routes.find(&path) {
        Some(found) => with_route(alloc, found, request),
        None => Err(refused(Refusal::NoRoute)),
    }
}

/// What a request wants, or the first that stands in its way: that no route has its path, that its
/// route hasn't its method, that its body is encoded, that its path has no reading, that its query
/// has none, that its body has none. No state is looked at, so a refusal has no place.
#[tactic(auto, using(crate::proofs::Served::answered))]
pub fn to_command(alloc: Global, routes: &Routes, request: &Request<'_>) -> Result<Wanted, Refused>
    ensures wanted { Answers result (wanted request.now) }
    ensures served { IfOk result IsServed }
{
    wanted(alloc, routes, request)
}
