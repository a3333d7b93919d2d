//! The rows of the path table.
ghost use Rattle.std.specs.Prelude.{◌≡◌};
ghost use Rattle.http_requests.specs.Routes.{allow_of, allows};

use http_words::Allow;

/// A row of the path table.
#[derive(Clone, Copy)]
pub(crate) enum Page {
    Searches,
    Leases,
    Report,
    Cancel,
    Reverts,
    Search,
    Runs,
    List,
    Farm,
    Orders,
    Totals,
    Log,
}

impl Page {
    /// The methods that the row allows.
    pub(crate) fn allow(self) -> Allow
        ensures { result ≡ allow_of self }
    {
        match self {
            Page::Searches | Page::Leases | Page::Report | Page::Cancel | Page::Reverts => {
                Allow::Post
            }
            Page::Search
            | Page::Runs
            | Page::List
            | Page::Farm
            | Page::Orders
            | Page::Totals
            | Page::Log => Allow::GetAndHead,
        }
    }
}

/// Whether a method is among those allowed. Its letters' case counts.
pub(crate) fn allows(allow: Allow, method: &[u8]) -> bool
    ensures { result ≡ allows allow method.now }
{
    match allow {
        Allow::Post => method == b"POST".as_slice(),
        Allow::GetAndHead => method == b"GET".as_slice() || method == b"HEAD".as_slice(),
    }
}
