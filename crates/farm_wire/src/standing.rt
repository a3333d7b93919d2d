//! Where a search stands, in the words of replies.

ghost use Rattle.std.specs.Prelude.{◌≡◌};
ghost use Rattle.farm_wire.specs.Members.{culprit_in, standing_word};

use farm_entry::Standing;

/// The word for where a search stands.
pub(crate) fn standing_word(standing: Standing) -> &'static str
    ensures { result.now ≡ standing_word standing }
{
    match standing {
        Standing::Searching => "searching",
        Standing::Verifying(_) => "verifying",
        Standing::Confirmed(_) => "confirmed",
        Standing::Vindicated(_) => "vindicated",
        Standing::NoCulprit => "no culprit",
        Standing::Inconclusive => "inconclusive",
        Standing::Cancelled => "cancelled",
    }
}

/// The position that a standing names.
pub(crate) fn culprit_in(standing: Standing) -> Option<u16>
    ensures { result ≡ culprit_in standing }
{
    match standing {
        Standing::Verifying(culprit)
        | Standing::Confirmed(culprit)
        | Standing::Vindicated(culprit) => Some(culprit),
        Standing::Searching | Standing::NoCulprit | Standing::Inconclusive | Standing::Cancelled =>
            None,
    }
}
