//! Laws of the items of a connection's bytes.
ghost use Rattle.std.specs.Prelude.{◌≡◌, ◌<◌, ◌≤◌, ◌+◌, Err, List, ℕ, [], ◌∷◌, ◌++◌, length, true, false};
ghost use Rattle.http_requests.specs.Fields.{fields_of};
ghost use Rattle.http_requests.specs.Framing.{has_host, is_foreign};
ghost use Rattle.http_requests.specs.Fronts.{Fronts, Opens, behind};
ghost use Rattle.http_requests.specs.Items.{Item, Items, IsNext, IsRequest, End, closed, refused};
ghost use Rattle.http_requests.specs.Laws.{IsSettled};
ghost use Rattle.http_requests.specs.Readings.{IsReading};

use crate::reading::Reading;
use http_words::Fault;

/// A connection's bytes have at most one list of items, and end in one way.
pub fn one_list_of_items()
    ensures { (bytes : List ℕ) (items others : List Item) (end other : End)
        → Items bytes items end → Items bytes others other → (items ≡ others) × (end ≡ other) }
{}

/// An item that doesn't close the connection lies in the bytes, and stays whatever follows them.
pub fn open_items_stay()
    ensures { (bytes more : List ℕ) (item : Item) → IsNext bytes item → item.closes ≡ false
        → IsNext (bytes ++ more) item × (item.size ≤ length bytes) }
{}

/// Where a connection closes by an item that is the same whatever follows, longer bytes have the same items.
pub fn closed_items_stay()
    ensures { (bytes more : List ℕ) (items : List Item)
        → Items bytes items closed → IsSettled bytes items → Items (bytes ++ more) items closed }
{}

/// An item that doesn't close the connection takes a byte or more, so a connection has no more of them than bytes.
pub fn open_items_have_bytes()
    ensures one { (bytes : List ℕ) (item : Item) → IsNext bytes item → item.closes ≡ false → 0 < item.size }
    ensures all { (bytes : List ℕ) (items : List Item)
        → Opens bytes items → length items + length (behind bytes items) ≤ length bytes }
{}

/// Items at the front are the first ones of all items, where there is a list of all, and the first ones of all items
/// stand at the front.
pub fn fronts_begin_the_items()
    ensures begin { (bytes : List ℕ) (items all : List Item) (end : End)
        → Fronts bytes items → Items bytes all end → (more : List Item) × (all ≡ items ++ more) }
    ensures stand { (bytes : List ℕ) (items more : List Item) (end : End)
        → Items bytes (items ++ more) end → Fronts bytes items }
{}

/// Items of which none closes stay at the front, whatever is taken behind their bytes.
pub fn more_bytes_keep_the_fronts()
    ensures { (bytes more : List ℕ) (items : List Item) → Opens bytes items
        → Opens (bytes ++ more) items × (behind (bytes ++ more) items ≡ behind bytes items ++ more) }
{}

/// Behind items of which none closes stand the next ones.
pub fn more_items_join_the_fronts()
    ensures still_open { (bytes : List ℕ) (items more : List Item) → Opens bytes items → Opens (behind bytes items) more
        → Opens bytes (items ++ more) × (behind bytes (items ++ more) ≡ behind (behind bytes items) more) }
    ensures last { (bytes : List ℕ) (items more : List Item)
        → Opens bytes items → Fronts (behind bytes items) more → Fronts bytes (items ++ more) }
    ensures whole { (bytes : List ℕ) (items more : List Item) (end : End)
        → Opens bytes items → Items (behind bytes items) more end → Items bytes (items ++ more) end }
{}

/// Where an item behind those closes whatever follows, all longer bytes have the same items.
pub fn a_settled_item_closes()
    ensures { (bytes more : List ℕ) (items : List Item) (item : Item) → Opens bytes items → item.closes ≡ true
        → ((rest : List ℕ) → IsNext (behind bytes items ++ rest) item)
        → Items (bytes ++ more) (items ++ item ∷ []) closed }
{}

/// What was read of a connection's bytes stays so, whatever is taken behind them.
pub fn readings_stay()
    ensures { (reading : Reading) (bytes more : List ℕ) → IsReading reading bytes → IsReading reading (bytes ++ more) }
{}

/// A `POST` with a field named `Origin` is answered by this fault, whatever stands in the field and in the rest of the
/// head, and whatever follows it: no interim answer is put, no body is read, and the connection closes. Only the rule
/// on `Host` comes before. No other request is answered by this fault.
pub fn posts_of_pages_are_refused()
    ensures foreign { (bytes : List ℕ) (item : Item) (request : IsRequest bytes item)
        → is_foreign request.head.method (fields_of request.head) ≡ true
        → has_host request.head.minor (fields_of request.head) ≡ true → item ≡ refused false false Fault.Foreign }
    ensures hostless { (bytes : List ℕ) (item : Item) (request : IsRequest bytes item)
        → is_foreign request.head.method (fields_of request.head) ≡ true
        → has_host request.head.minor (fields_of request.head) ≡ false → item ≡ refused false false Fault.BadRequest }
    ensures only { (bytes : List ℕ) (item : Item) → IsNext bytes item → item.asks ≡ Err Fault.Foreign
        → (request : IsRequest bytes item) × (is_foreign request.head.method (fields_of request.head) ≡ true)
        × (has_host request.head.minor (fields_of request.head) ≡ true) }
{}
