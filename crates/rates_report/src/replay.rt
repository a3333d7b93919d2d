//! Playing a history again.

ghost use Rattle.std.specs.Prelude.{◌≡◌, ℕ, ◌++◌, ◌∷◌, [], Some, IfOk, OnOk};
ghost use Rattle.farm_entry.specs.History.{opening_numbered};
ghost use Rattle.farm_entry.specs.Legal.{IsLegal};
ghost use Rattle.farm_entry.specs.Standing.{standing};

use crate::FlakeBook;
use farm_core::{AdmitFault, CoreFault, Farm, Prepared};
use farm_entry::{Command, Entry, Opening, Reply, Standing};
use farm_types::{Memory, Moment};
use std::alloc::Global;

/// The book that was noted this history, with the standings that a farm shows which takes the entries one by one.
///
/// # Errors
///
/// [`Memory`].
pub fn book_of(alloc: Global, history: &[Entry]) -> Result<FlakeBook, Memory>
    requires { IsLegal history.now }
    ensures { IfOk result (λ book. book ≡ history.now) }
{
    let Some((first, others)) = history.split_first() else {
        unreachable!();
    };
    let mut farm = founded(alloc, first)?;
    let mut book = FlakeBook::start(alloc);
    book.note(first, Standing::Searching)?;
    for entry in others {
        go_on(&mut farm, &mut book, entry)?;
    }
    Ok(book)
}

/// The farm that an entry founds.
fn founded(alloc: Global, entry: &Entry) -> Result<Farm, Memory>
    requires { IsLegal (entry.now ∷ []) }
    ensures { IfOk result (λ farm. farm.history ≡ entry.now ∷ []) }
{
    match Farm::founded_by(alloc, entry) {
        Ok(farm) => Ok(farm),
        Err(AdmitFault::Illegal) => unreachable!(),
        Err(AdmitFault::Memory) => Err(Memory),
    }
}

/// Takes the next entry into the farm, and notes it with the standing of its search.
fn go_on(farm: &mut Farm, book: &mut FlakeBook, entry: &Entry) -> Result<(), Memory>
    requires same { book.old ≡ farm.old.history }
    requires legal { IsLegal (farm.old.history ++ entry.now ∷ []) }
    ensures farm { OnOk result (farm.new.history ≡ farm.old.history ++ entry.now ∷ []) }
    ensures book { OnOk result (book.new ≡ farm.old.history ++ entry.now ∷ []) }
{
    let search = book.search_of(entry);
    admit(farm, entry.copy()?)?;
    let standing = standing_of(farm, search, entry.at)?;
    book.note(entry, standing)
}

/// Takes an entry that may come next into the farm.
fn admit(farm: &mut Farm, entry: Entry) -> Result<(), Memory>
    requires { IsLegal (farm.old.history ++ entry ∷ []) }
    ensures { OnOk result (farm.new.history ≡ farm.old.history ++ entry ∷ []) }
{
    match farm.admit(entry) {
        Ok(()) => Ok(()),
        Err(AdmitFault::Illegal) => unreachable!(),
        Err(AdmitFault::Memory) => Err(Memory),
    }
}

/// Where the search with a number stands, if there is one; else any standing.
fn standing_of(farm: &mut Farm, search: Option<u32>, at: Moment) -> Result<Standing, Memory>
    ensures standing { IfOk result (λ s. (number : ℕ) (o : Opening) → search ≡ Some number
        → opening_numbered farm.old.history number ≡ Some o → standing farm.old.history o ≡ s) }
    ensures history { farm.new.history ≡ farm.old.history }
{
    match search {
        Some(search) => standing_in(farm, search, at),
        None => Ok(Standing::Searching),
    }
}

/// Where the search with this number stands, if there is one; else any standing.
fn standing_in(farm: &mut Farm, search: u32, at: Moment) -> Result<Standing, Memory>
    ensures standing { IfOk result (λ s. (o : Opening) → opening_numbered farm.old.history search ≡ Some o
        → standing farm.old.history o ≡ s) }
    ensures history { farm.new.history ≡ farm.old.history }
{
    match farm.prepare(&Command::ShowSearch { search }, at) {
        Ok(Prepared::Shown(Reply::Search(page))) => Ok(page.standing),
        Ok(_) => unreachable!(),
        Err(CoreFault::Refused(_)) => Ok(Standing::Searching),
        Err(CoreFault::Memory) => Err(Memory),
    }
}
