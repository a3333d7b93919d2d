//! The requests of one HTTP connection, read from the bytes that are held of it: where the next request ends, what it
//! asks for by its method and path, or by which fault it is answered, whether the connection closes then, and whether
//! the interim answer comes first. There is no farm behind it, and reading takes no memory.
//!
//! What a connection's whole bytes come to is the relation `Items` of `specs/Items`: [`next_of`] answers its items one
//! after the other, as soon as each is decided whatever follows, and the laws in [`laws`] say that there is one list of
//! them. How many bytes are looked at for a request is bounded by those of its head ([`next_counted`], `specs/Costs`).
//! The length of a body is defined in `specs/Framing`.
//!
//! [`Fields`] are the fields of a head, a request's or a response's, as they stand in the bytes: what a field of a name
//! says, whether the connection closes or the interim answer is asked for, and the length of the body ([`length_in`]).
//! What they say is defined over the list of their names and values in `specs/FieldTexts` and `specs/Lengths`. Proofs
//! above may cite `proofs/Cuts`, on the parts of a text that is cut at a byte.
//!
//! [`Pages`] is the path table of the service, in a router: the endpoint of a request by its method and target. It is
//! filled once and then shared. Which row a path stands in, which methods the row allows and which numbers the path has
//! to hold is defined over the path's parts in `specs/Routes`, and `specs/Paths` says what of a target is its path. A
//! new row is a line of `path_table`, one of `Pages::new` and one of `endpoint_at`; where its path is fixed, it may be
//! one of `fixed_page` too, which spares the cut of the target and the router. Proofs above cite `proofs/Rows` for what
//! holds of whatever is asked for.
//!
//! A table's rows are patterns, each with a value. A pattern is a list of what stands between its slashes: a text, or a
//! parameter, which takes any part that isn't empty. A path stands in the first row whose pattern its parts fit. The
//! router of `matchit` is filled by [`add_route`], row by row; `values_of` and `rows_for` of `specs/` say that it holds
//! a table, and the law in [`router_law`] what it finds for each text: that of `row_in`, both ways, for any table whose
//! rows are apart, so that no path fits two of them. Both premises are computed where the table is written down. Proofs
//! above may cite `proofs/Table`.
//!
//! The crate stands on `httparse` for the grammar of heads and the spans of fields, on `matchit` for the router, on
//! `memchr` for the ends of lines, on `http_words` for what is asked for and refused and for limits, on `common_types`
//! for numbers, and on `farm_types` for the out-of-memory error. The layers above may use every name below.
#![tactic(auto)]

mod answered;
mod facts;
mod fields;
mod filling;
mod fixed;
mod framing;
mod front;
mod head;
mod last_head;
pub mod laws;
mod lengths;
mod look;
mod looked;
mod named;
mod next;
mod numbers;
mod page;
mod pages;
mod path;
mod place;
mod reading;
mod request;
pub mod router_law;
mod stride;
mod text;
mod whole;

pub use fields::Fields;
pub use filling::add_route;
pub use last_head::LastHead;
pub use lengths::{StatedLength, length_in};
pub use looked::Looked;
pub use named::lists_close;
pub use next::{Awaited, Next, next_counted, next_of};
pub use pages::Pages;
pub use reading::Reading;
pub use request::Request;
pub use text::{cut, is_same, trimmed};
pub use whole::every_input_has_items;
