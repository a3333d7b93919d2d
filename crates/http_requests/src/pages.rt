//! The path table in a router.
ghost use Rattle.std.specs.Prelude.{◌≡◌, Some};
ghost use Rattle.std.specs.Str.{IsUtf8};
ghost use Rattle.http_requests.specs.Apart.{in_order};
ghost use Rattle.http_requests.specs.Filled.{values_of};
ghost use Rattle.http_requests.specs.Walk.{rows_for};
ghost use Rattle.http_requests.specs.declared.page.Page.TheVariants as page;
ghost use Rattle.http_requests.specs.Routes.{endpoint_at, endpoint_by, endpoint_of, page_of, path_table};

use crate::add_route;
use crate::fixed::fixed_page;
use crate::numbers::{FIRST_NUMBER, SECOND_NUMBER, number_at};
use crate::page::{Page, allows};
use crate::path::{path_of, text_of};
use farm_types::Memory;
use http_words::{Endpoint, Fault, PathField, Route};
use matchit::Router;
use std::alloc::Global;

/// The path table, filled once. Any number of connections may look into it at a time.
#[derive(Drop)]
pub struct Pages {
    router: Router<Page>,
    ghost filled: { values_of router ≡ rows_for (in_order path_table) },
}

impl Pages {
    /// The table, filled.
    pub fn new(alloc: Global) -> Result<Pages, Memory> {
        let mut router = Router::new(alloc);
        add_route(&mut router, "/v1/searches", Page::Searches)?;
        add_route(&mut router, "/v1/leases", Page::Leases)?;
        add_route(&mut router, "/v1/runs/{run}/report", Page::Report)?;
        add_route(&mut router, "/v1/searches/{search}/cancel", Page::Cancel)?;
        add_route(&mut router, "/v1/reverts", Page::Reverts)?;
        add_route(&mut router, "/v1/searches/{search}", Page::Search)?;
        add_route(&mut router, "/v1/searches/{search}/runs/{from}", Page::Runs)?;
        add_route(&mut router, "/v1/list/{from}", Page::List)?;
        add_route(&mut router, "/v1/farm", Page::Farm)?;
        add_route(&mut router, "/v1/orders", Page::Orders)?;
        add_route(&mut router, "/v1/totals", Page::Totals)?;
        add_route(&mut router, "/v1/log/{from}", Page::Log)?;
        Ok(Pages { router })
    }

    /// The row that the router finds for a path.
    fn routed_page(&self, path: &str) -> Option<Page>
        ensures { result ≡ page_of path.now }
    {
        match self.router.at(path) {
            Ok(found) => Some(*found.value),
            Err(_) => None,
        }
    }

    /// The row in which a path stands.
    fn page_of(&self, path: &[u8]) -> Option<Page>
        requires { IsUtf8 path.now }
        ensures { result ≡ page_of path.now }
    {
        match fixed_page(path) {
            Some(page) => Some(page),
            None => self.routed_page(text_of(path)),
        }
    }

    /// What a request asks for by its method and target, or why it asks for nothing. The target has to be a text, as
    /// that of every head is.
    #[tactic(auto, unfolding(crate::specs::Routes::endpoint_of))]
    pub fn endpoint_of(&self, method: &[u8], target: &[u8]) -> Result<Endpoint, Fault>
        requires { IsUtf8 target.now }
        ensures { result ≡ endpoint_of method.now target.now }
    {
        if let Some(page) = fixed_page(target) {
            return endpoint_in(page, target, method);
        }
        let path = path_of(target);
        let Some(page) = self.page_of(path) else {
            return Err(Fault::NotFound);
        };
        endpoint_in(page, path, method)
    }
}

/// What a request asks for by its method, where its path stands in a row.
fn endpoint_in(page: Page, path: &[u8], method: &[u8]) -> Result<Endpoint, Fault>
    requires { IsUtf8 path.now }
    ensures { result ≡ endpoint_by (Some page) path.now method.now }
{
    if !allows(page.allow(), method) {
        return Err(Fault::MethodNotAllowed(page.allow()));
    }
    endpoint_at(page, path)
}

/// What a path asks for that stands in a row.
fn endpoint_at(page: Page, path: &[u8]) -> Result<Endpoint, Fault>
    requires { IsUtf8 path.now }
    ensures { result ≡ endpoint_at page path.now }
{
    match page {
        Page::Searches => Ok(Endpoint::Command(Route::Open)),
        Page::Leases => Ok(Endpoint::Command(Route::Lease)),
        Page::Reverts => Ok(Endpoint::Command(Route::Revert)),
        Page::Farm => Ok(Endpoint::Command(Route::Farm)),
        Page::Orders => Ok(Endpoint::Command(Route::Orders)),
        Page::Totals => Ok(Endpoint::Totals),
        Page::Report => match number_at(FIRST_NUMBER, text_of(path)) {
            Some(run) => Ok(Endpoint::Command(Route::Report(run))),
            None => Err(Fault::BadField(PathField::Run)),
        },
        Page::Cancel => match number_at(FIRST_NUMBER, text_of(path)) {
            Some(search) => Ok(Endpoint::Command(Route::Cancel(search))),
            None => Err(Fault::BadField(PathField::Search)),
        },
        Page::Search => match number_at(FIRST_NUMBER, text_of(path)) {
            Some(search) => Ok(Endpoint::Command(Route::Search(search))),
            None => Err(Fault::BadField(PathField::Search)),
        },
        Page::Runs => runs_at(text_of(path)),
        Page::List => match number_at(FIRST_NUMBER, text_of(path)) {
            Some(from) => Ok(Endpoint::Command(Route::List(from))),
            None => Err(Fault::BadField(PathField::From)),
        },
        Page::Log => match number_at(FIRST_NUMBER, text_of(path)) {
            Some(from) => Ok(Endpoint::Log(from)),
            None => Err(Fault::BadField(PathField::From)),
        },
    }
}

/// What a path asks for that stands in the row of a search's runs.
fn runs_at(path: &str) -> Result<Endpoint, Fault>
    ensures { result ≡ endpoint_at page.Runs path.now }
{
    let Some(search) = number_at(FIRST_NUMBER, path) else {
        return Err(Fault::BadField(PathField::Search));
    };
    let Some(from) = number_at(SECOND_NUMBER, path) else {
        return Err(Fault::BadField(PathField::From));
    };
    Ok(Endpoint::Command(Route::Runs { search, from }))
}
