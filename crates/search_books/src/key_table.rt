//! The places of keys.

ghost use Rattle.std.specs.Prelude.{ℕ, ◌≡◌, ◌≤◌, ◌+◌, None, Some, OnOk};
ghost use Rattle.std.specs.FinMap.{empty, get, insert, remove};

use crate::key_chains::{Item, grown, link, replace, seek, unlink_last};
use farm_types::Memory;
use std::alloc::Global;
use std::marker::Model;

/// A map from keys to places, in a dense list of items with a chain through it for each bucket. Contracts see the map,
/// and its room: how many more keys it takes without memory.
#[derive(Drop)]
pub(crate) struct KeyTable {
    heads: Vec<usize>,
    items: Vec<Item>,
}

impl Model for KeyTable {
    ghost use Rattle.std.specs.Prelude.{◌-◌, length};
    ghost use Rattle.std.specs.Vec.{vec_capacity};
    ghost use Rattle.search_books.specs.KeyTable.{KeyPlaces, key_places_code, places_of, IsTable};

    ghost Value = { KeyPlaces };

    ghost coded = { key_places_code };

    ghost view = { λ table. record {
      places = places_of table.items.items;
      room = vec_capacity table.items - length table.items.items;
    } };

    ghost invariant = { λ table. IsTable table.heads.items table.items.items (vec_capacity table.items) };
}

impl KeyTable {
    /// No keys, which takes no memory.
    pub(crate) fn start(alloc: Global) -> KeyTable
        ensures { result.places ≡ empty }
    {
        KeyTable {
            heads: Vec::new(alloc),
            items: Vec::new(alloc),
        }
    }

    /// Makes room for so many more keys. Where it grows it at least doubles, and without memory nothing changes.
    pub(crate) fn reserve(&mut self, more: usize) -> Result<(), Memory>
        ensures places { self.new.places ≡ self.old.places }
        ensures ok { OnOk result (more ≤ self.new.room) }
        ensures room { self.old.room ≤ self.new.room }
    {
        if more <= self.items.capacity() - self.items.len() {
            return Ok(());
        }
        let wanted = self.items.len().checked_add(more).ok_or(Memory)?;
        let doubled = self.items.capacity().saturating_mul(2);
        let size = wanted
            .max(doubled)
            .checked_next_power_of_two()
            .ok_or(Memory)?;
        let alloc = *self.items.allocator();
        let (heads, items) = grown(alloc, &self.items, size)?;
        self.heads = heads;
        self.items = items;
        Ok(())
    }

    /// The place of a key.
    pub(crate) fn find(&self, key: u128) -> Option<u32>
        ensures { result ≡ get self.now.places key }
    {
        if self.heads.is_empty() {
            return None;
        }
        let at = seek(&self.heads, &self.items, key);
        if at == 0 {
            None
        } else {
            Some(self.items[at - 1].place)
        }
    }

    /// Puts a new key, which takes no memory.
    pub(crate) fn put(&mut self, key: u128, place: u32)
        requires room { 1 ≤ self.old.room }
        requires absent { get self.old.places key ≡ None }
        ensures places { self.new.places ≡ insert self.old.places key place }
        ensures room { self.new.room + 1 ≡ self.old.room }
    {
        link(&mut self.heads, &mut self.items, key, place);
    }

    /// Takes a key away, which takes no memory and gives its room back.
    pub(crate) fn take(&mut self, key: u128)
        requires present { (place : ℕ) × (get self.old.places key ≡ Some place) }
        ensures places { self.new.places ≡ remove self.old.places key }
        ensures room { self.new.room ≡ self.old.room + 1 }
    {
        let at = seek(&self.heads, &self.items, key);
        let last = unlink_last(&mut self.heads, &mut self.items);
        if at <= self.items.len() {
            replace(
                &mut self.heads,
                &mut self.items,
                at - 1,
                last.key,
                last.place,
            );
        }
    }
}
