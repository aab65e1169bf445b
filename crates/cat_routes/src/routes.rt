ghost use Rattle.std.specs.Prelude.{◌≡◌, OnOk, OnSome, IsNone, IsAscii, [], map, drop, option_map, slice_get};
ghost use Rattle.matchit.specs.Params.{walk};
ghost use Rattle.matchit.specs.Route.{parse_route};
ghost use Rattle.cat_routes.specs.Table.{table, with_route, shown, found_in};
ghost use Rattle.cat_routes.specs.Parts.{AreTexts};

use crate::path::Path;
use cat_codes::fault::NoMemory;
use matchit::{Params, ParamsIter, Router};
use std::alloc::Global;

/// A route, named by what it answers.
#[derive(Clone, Copy, Debug, PartialEq, Eq)]
pub enum Route {
    /// `/api/v2/config`
    Config,
    /// `/api/v2/trees`
    Trees,
    /// `/api/v2/trees/{reference}`
    Tree,
    /// `/api/v2/trees/{reference}/entries`
    Entries,
    /// `/api/v2/trees/{reference}/history`
    History,
    /// `/api/v2/trees/{reference}/contents`
    Contents,
    /// `/api/v2/trees/{reference}/contents/{key}`
    Content,
    /// `/api/v2/trees/{reference}/history/commit`
    Commit,
    /// `/api/v2/trees/{reference}/history/merge`
    Merge,
    /// `/api/v2/trees/{reference}/history/transplant`
    Transplant,
    /// `/gc/v1/sweep`
    Sweep,
    /// `/gc/v1/checkpoint`
    Checkpoint,
}

/// The route of a path, and what its parameters took, still escaped.
#[derive(Clone, Copy)]
pub struct Found<'p> {
    pub route: Route,
    pub reference: Option<&'p str>,
    pub key: Option<&'p str>,
}

/// The table of routes.
#[derive(Drop)]
pub struct Routes {
    router: Router<Route>,
    ghost made: { router ≡ table },
}

fn add(router: &mut Router<Route>, path: &str, route: Route) -> Result<(), NoMemory>
    ensures { OnOk result (router.new ≡ with_route (parse_route path.now) route router.old) }
{
    match router.insert(path, route) {
        Ok(()) => Ok(()),
        Err(_) => Err(NoMemory),
    }
}

fn next_part<'p>(parts: &mut ParamsIter<'_, '_, 'p>) -> Option<&'p str>
    requires { AreTexts parts.old }
    ensures part { option_map (λ s. s.now) result ≡ slice_get (map (λ p. p.1) parts.old) 0 }
    ensures rest { OnSome result (map (λ p. p.1) parts.new ≡ drop 1 (map (λ p. p.1) parts.old)) }
    ensures texts { OnSome result (AreTexts parts.new) }
    ensures none { IsNone result → map (λ p. p.1) parts.old ≡ [] }
{
    match parts.next() {
        Some((_, part)) => Some(part),
        None => None,
    }
}

#[tactic(auto, using(crate::proofs::Texts::are_texts))]
fn two_parts<'p>(params: &Params<'_, 'p>) -> (Option<&'p str>, Option<&'p str>)
    requires { IsAscii params.now.path.now }
    ensures first { option_map (λ s. s.now) result.0
        ≡ slice_get
        (map (λ p. p.1)
        (walk params.now.pattern.now params.now.text.now params.now.path.now params.now.names.now
        0 0)) 0 }
    ensures second { option_map (λ s. s.now) result.1
        ≡ slice_get
        (map (λ p. p.1)
        (walk params.now.pattern.now params.now.text.now params.now.path.now params.now.names.now
        0 0)) 1 }
{
    let mut parts = params.iter();
    let Some(first) = next_part(&mut parts) else {
        return (None, None);
    };
    (Some(first), next_part(&mut parts))
}

impl Routes {
    /// The table with every route.
    pub fn new(alloc: Global) -> Result<Routes, NoMemory> {
        let mut router = Router::new(alloc);
        add(&mut router, "/api/v2/config", Route::Config)?;
        add(&mut router, "/api/v2/trees", Route::Trees)?;
        add(&mut router, "/api/v2/trees/{reference}", Route::Tree)?;
        add(
            &mut router,
            "/api/v2/trees/{reference}/entries",
            Route::Entries,
        )?;
        add(
            &mut router,
            "/api/v2/trees/{reference}/history",
            Route::History,
        )?;
        add(
            &mut router,
            "/api/v2/trees/{reference}/contents",
            Route::Contents,
        )?;
        add(
            &mut router,
            "/api/v2/trees/{reference}/contents/{key}",
            Route::Content,
        )?;
        add(
            &mut router,
            "/api/v2/trees/{reference}/history/commit",
            Route::Commit,
        )?;
        add(
            &mut router,
            "/api/v2/trees/{reference}/history/merge",
            Route::Merge,
        )?;
        add(
            &mut router,
            "/api/v2/trees/{reference}/history/transplant",
            Route::Transplant,
        )?;
        add(&mut router, "/gc/v1/sweep", Route::Sweep)?;
        add(&mut router, "/gc/v1/checkpoint", Route::Checkpoint)?;
        Ok(Routes { router })
    }

    /// The route of a path, unless no route has it.
    pub fn find<'p>(&self, path: &'p Path) -> Option<Found<'p>>
        ensures { option_map shown result ≡ found_in path.now }
    {
        match self.router.at(path.as_str()) {
            Ok(found) => {
                let (reference, key) = two_parts(&found.params);
                Some(Found {
                    route: *found.value,
                    reference,
                    key,
                })
            }
            Err(_) => None,
        }
    }
}
