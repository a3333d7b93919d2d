//! A follower's ask for a page of the log, as the service reads it, and the page, as the follower reads it. A function
//! here does nothing: its contract is the law.
ghost use Rattle.std.specs.Prelude.{◌≡◌, ◌<◌, ◌≤◌, ◌^◌, List, [], ℕ};
ghost use Rattle.entry_codec.specs.Grammar.{AreSpelled};
ghost use Rattle.entry_codec.specs.LogPage.{log_page, page_entries};
ghost use Rattle.farm_entry.specs.declared.entry.Entry.{Entry};
ghost use Rattle.farm_wire.specs.Replies.{log_data};
ghost use Rattle.hex.specs.Hex.{IsBytes};
ghost use Rattle.http_words.specs.declared.endpoint.Endpoint.TheVariants.{Log};
ghost use Rattle.journal_follow.specs.Asks.{ask_request};
ghost use Rattle.journal_follow.specs.Pages.{IsPage};
ghost use Rattle.leaf_laws.specs.Sent.{IsOneRequest};
ghost use Rattle.serde_json.specs.Written.{compact_text};

/// A follower's ask for the entries from one on is, on a connection of its own, the request for that page and nothing
/// else.
pub fn page_requests_are_read()
    ensures { (from : ℕ) → 1 ≤ from → from < 2 ^ 32 → IsOneRequest (Log from) (ask_request from) [] }
{}

/// What the service writes for a page of a history is read by a follower as that page: the same entries, from the same
/// one on. The service writes a page only of entries that have a spelling.
pub fn pages_are_read_as_pages()
    ensures { (from : ℕ) (history : List Entry) → from < 2 ^ 32 → AreSpelled (page_entries from history)
        → IsBytes (log_page from history)
        → IsPage from (compact_text (log_data from (log_page from history))) (page_entries from history) }
{}
