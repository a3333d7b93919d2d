//! What an entry is to the searches.

ghost use Rattle.std.specs.Prelude.{◌≡◌};
ghost use Rattle.kept_farm.specs.Searches.{kind_of};

use farm_entry::What;
use search_books::EntryKind;

/// What an entry is to the searches.
pub(crate) fn kind_of(what: &What) -> EntryKind
    ensures { result ≡ kind_of what.now }
{
    match what {
        What::Opened(_) => EntryKind::Opening,
        What::Leased { search, .. } => EntryKind::Lease(*search),
        What::Ordered { search, .. } => EntryKind::Order(*search),
        _ => EntryKind::Other,
    }
}
