//! The places of runs' reports.

ghost use Rattle.std.specs.Prelude.{ℕ, ◌≡◌, ◌≤◌, ◌<◌, None, Some, OnOk};
ghost use Rattle.std.specs.FinMap.{empty, get, insert, remove};

use farm_types::Memory;
use std::alloc::Global;
use std::marker::Model;

/// A map from runs to places, with a row for each run. Contracts see the map, and the number below which each run has
/// its row.
#[derive(Drop)]
pub(crate) struct RunRows {
    rows: Vec<Option<u32>>,
}

impl Model for RunRows {
    ghost use Rattle.std.specs.Prelude.{length};
    ghost use Rattle.search_books.specs.RunRows.{RunPlaces, run_places_code, places_in};

    ghost Value = { RunPlaces };

    ghost coded = { run_places_code };

    ghost view = { λ rows. record { places = places_in rows.rows.items; bound = length rows.rows.items } };
}

impl RunRows {
    /// No rows, which takes no memory.
    pub(crate) fn start(alloc: Global) -> RunRows
        ensures { result.places ≡ empty }
    {
        RunRows {
            rows: Vec::new(alloc),
        }
    }

    /// Makes the rows of all runs up to one. Where it grows it at least doubles, and without memory nothing changes.
    pub(crate) fn reserve(&mut self, run: u32) -> Result<(), Memory>
        ensures places { self.new.places ≡ self.old.places }
        ensures ok { OnOk result (run < self.new.bound) }
        ensures bound { self.old.bound ≤ self.new.bound }
    {
        if (run as usize) < self.rows.len() {
            return Ok(());
        }
        let wanted = run as usize + 1;
        let doubled = self.rows.len().saturating_mul(2);
        self.rows.resize(wanted.max(doubled), None)?;
        Ok(())
    }

    /// The place of a run's report.
    pub(crate) fn find(&self, run: u32) -> Option<u32>
        ensures { result ≡ get self.now.places run }
    {
        if (run as usize) < self.rows.len() {
            self.rows[run as usize]
        } else {
            None
        }
    }

    /// Puts the place of a run's report, which takes no memory.
    pub(crate) fn put(&mut self, run: u32, place: u32)
        requires row { run < self.old.bound }
        ensures places { self.new.places ≡ insert self.old.places run place }
        ensures bound { self.new.bound ≡ self.old.bound }
    {
        self.rows[run as usize] = Some(place);
    }

    /// Takes a run's report away, which takes no memory.
    pub(crate) fn take(&mut self, run: u32)
        requires present { (place : ℕ) × (get self.old.places run ≡ Some place) }
        ensures places { self.new.places ≡ remove self.old.places run }
        ensures bound { self.new.bound ≡ self.old.bound }
    {
        self.rows[run as usize] = None;
    }
}
