//! What a router finds that holds a table.
ghost use Rattle.std.specs.Prelude.{◌≡◌, ℕ, List, true};
ghost use Rattle.std.specs.Str.{IsUtf8};
ghost use Rattle.matchit.specs.Seek.{first};
ghost use Rattle.http_requests.specs.Apart.{all_apart, in_order};
ghost use Rattle.http_requests.specs.Segments.{Segment, parts, row_in};
ghost use Rattle.http_requests.specs.Walk.{all_plain, rows_for};

/// Of any table of which no two rows fit one path, whose texts are bytes without slashes: a router that holds its rows
/// finds for each text the row that the text's parts fit, and none where they fit none.
pub fn a_router_finds_the_row<T>()
    ensures { (table : List (List Segment × T)) (path : List ℕ) → IsUtf8 path → all_plain (in_order table) ≡ true
        → all_apart table ≡ true → first (rows_for (in_order table)) path ≡ row_in table (parts path) }
{}
