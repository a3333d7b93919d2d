//! Values that several crates speak of: out of memory as an error, counts of faults, lists that objects of the outside
//! tell, moments that are over, lists of items, lists that another one begins with, and decimal digits.
//!
//! There are two ways in which a call of this repository can fail whatever it does: by running out of memory, which is
//! [`Memory`], and by a fault of the outside, which is counted. Of counts the crate has the definitions alone, `Counts`
//! of `specs/`. `farm_types`, `farm_disk` and `weight_exact` hand `Memory` on under their own names.
//!
//! A [`ToldList`] is what an object of the outside tells contracts without a byte of memory: the list of what it has
//! done, the newest first, which grows with each of its calls.
//!
//! A value of a type that is a [`Past`] speaks of one moment of a disk that is over, whoever has it, for ever. Code
//! that is generic over a disk has none but those that its disk gave. It needs no byte. A [`Row`] says of a moment how
//! many entries of a history the disk held then and holds since. Rows are for contracts alone.
//!
//! A `Vec` in a field is seen by clauses with its capacity and its place in memory, so two values with the same items
//! need not be equal. An [`ItemList`] is seen as its items alone, and `==` tells exactly that. It is made from a `Vec`
//! and gives it back, without memory. The layers above name their lists by an alias, as `type Suspects =
//! ItemList<Suspect>`.
//!
//! `specs/Prefix` has what somebody has seen of a list that only grows: `IsPrefix`, and `longer` of two lists.
//! `specs/Decimals` has what a text in decimal digits writes: with zeros in front, as the length of a body may be
//! written, and without, as every other number here is. A text may have any number of digits.
//!
//! The crate stands on the standard library and on `thiserror`. The layers above may use every name below, the
//! definitions of `specs/`, and the lemmas of `proofs/`.
#![tactic(auto)]

mod decimals;
mod item_list;
mod list;
mod memory;
mod passed;
mod row;

pub use decimals::{are_digits, digits_up_to, number};
pub use item_list::ItemList;
pub use list::ToldList;
pub use memory::Memory;
pub use passed::{Passed, Past};
pub use row::Row;
