//! The rows of the path table whose paths are fixed.
ghost use Rattle.std.specs.Prelude.{◌≡◌, true, Some, IfSome};
ghost use Rattle.http_requests.specs.Paths.{path_of};
ghost use Rattle.http_requests.specs.Routes.{page_of};

use crate::page::Page;

/// Whether a target is the fixed path.
fn is_fixed(target: &[u8], fixed: &[u8]) -> bool
    ensures { result ≡ true → target.now ≡ fixed.now }
{
    if target.len() != fixed.len() {
        return false;
    }
    for i in 0..fixed.len() {
        if target[i] != fixed[i] {
            return false;
        }
    }
    true
}

/// A row, where this target is the fixed path that stands in it.
fn page_at(target: &[u8], fixed: &[u8], page: Page) -> Option<Page>
    requires row { page_of fixed.now ≡ Some page }
    requires whole { path_of fixed.now ≡ fixed.now }
    ensures row { IfSome result (λ found. page_of target.now ≡ Some found) }
    ensures whole { IfSome result (λ _. path_of target.now ≡ target.now) }
{
    if is_fixed(target, fixed) {
        Some(page)
    } else {
        None
    }
}

/// The row that has a target as it stands, without a number, where there is one. Most requests ask for such a row, and
/// neither the cut of their target nor the router is needed for them. By the first letter behind `/v1/` at most one
/// path has to be compared.
pub(crate) fn fixed_page(target: &[u8]) -> Option<Page>
    ensures row { IfSome result (λ found. page_of target.now ≡ Some found) }
    ensures whole { IfSome result (λ _. path_of target.now ≡ target.now) }
{
    match target.get(4) {
        Some(b'l') => page_at(target, b"/v1/leases", Page::Leases),
        Some(b'o') => page_at(target, b"/v1/orders", Page::Orders),
        Some(b't') => page_at(target, b"/v1/totals", Page::Totals),
        Some(b'f') => page_at(target, b"/v1/farm", Page::Farm),
        Some(b's') => page_at(target, b"/v1/searches", Page::Searches),
        _ => None,
    }
}
