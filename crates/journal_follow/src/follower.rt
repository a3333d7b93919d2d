//! A follower.

ghost use Rattle.std.specs.Prelude.{
  ◌≡◌,
  ◌≢◌,
  ◌≤◌,
  ◌-◌,
  ◌++◌,
  [],
  true,
  length,
  IfOk,
  IfErr,
  OnOk,
  IsErrOf,
  None,
  Some,
};
ghost use Rattle.entry_codec.specs.Spelling.{spelling};
ghost use Rattle.farm_disk.specs.Images.{LeavesOnly};
ghost use Rattle.farm_journal.specs.declared.layout.TheConstants.{MAX_PAYLOAD};
ghost use Rattle.farm_store.specs.declared.asking.TheConstants.{MAX_RECORD_BYTES};
ghost use Rattle.journal_follow.specs.Page.{MayBeHeld};
ghost use Rattle.journal_follow.specs.Taking.{Came, Takes};
ghost use Rattle.journal_follow.specs.Opened.{Opens};
ghost use Rattle.journal_follow.specs.Shown.{IsKept, ShowsLeft};
ghost use Rattle.journal_follow.specs.Inside.{HasCountFrom, IsPast, IsRefused, Mends, Puts};
ghost use Rattle.journal_follow.specs.State.{IsSameDisk};
ghost use Rattle.journal_follow.specs.Taken.{Answers, HasCause, IsSoundly, OnMemory};

use crate::FollowFault;
use crate::comparing::first_difference;
use crate::place::Place;
use farm_disk::Disk;
use farm_entry::Entry;
use farm_store::{OpeningFault, Store};
use std::alloc::Global;
use std::marker::Model;
use std::mem;

/// A follower: a history that is a beginning of another node's, and stands on a disk.
///
/// After a fault of the disk the entries of the record that was being stored are pending: they are in the history or
/// not, as the repair finds with which the next call begins. The history that the follower tells is the one without
/// them.
#[derive(Drop)]
pub struct Follower<D: Disk> {
    place: Option<Place<D>>,
}

impl<D: Disk> Model for Follower<D> {
    ghost use Rattle.journal_follow.specs.Inside.{IsFollower, follower_state};
    ghost use Rattle.journal_follow.specs.State.{FollowerState};

    ghost Value = { FollowerState };

    ghost view = { λ f. follower_state D.tells D.told D.count f.place };

    ghost invariant = { λ f. IsFollower D.tells D.told D.count f.place };
}

impl<D: Disk> Follower<D> {
    /// Opens the follower on a disk. An unborn one is a follower with an empty history. It changes nothing. An error
    /// hands the disk back.
    ///
    /// # Errors
    ///
    /// [`OpeningFault`], but for its `Unborn`, as of a store.
    pub fn open_on(alloc: Global, disk: D) -> Result<Follower<D>, (D, OpeningFault)>
        ensures opens { Opens D.tells D.told D.count disk result }
        ensures legal { IfOk result (λ follower. MayBeHeld follower.held.history) }
    {
        match Store::open_on(alloc, disk) {
            Ok(store) => Ok(Follower {
                place: Some(Place::Open(store)),
            }),
            Err((disk, fault)) => match fault {
                OpeningFault::Unborn => Ok(Follower {
                    place: Some(Place::Unborn(disk)),
                }),
                fault => Err((disk, fault)),
            },
        }
    }

    /// Takes a page: entries of the leader's history from the one of this number on, counted from 1, at least one, and
    /// at most so many as fit a record. They are compared with those held, and the entries past these are stored in
    /// one record. Answers how many these are; where there are none, nothing is written.
    ///
    /// A call after a [`FollowFault::StoreFault`] begins by finding out whether what was pending was kept.
    ///
    /// # Errors
    ///
    /// [`FollowFault::Gap`], exactly where the page begins past the entry behind those held; [`FollowFault::Foreign`],
    /// exactly where one of its entries isn't the one held, or can't come next, with the place of the first;
    /// [`FollowFault::StoreFault`], where the disk failed in this call; [`FollowFault::Damaged`], of a disk that
    /// doesn't tell what it holds; or [`FollowFault::Memory`].
    pub fn take(&mut self, alloc: Global, from: u32, entries: &[Entry]) -> Result<u32, FollowFault>
        requires from { 1 ≤ from }
        requires some { 1 ≤ length entries.now }
        requires fits { length (spelling entries.now) ≤ MAX_PAYLOAD }

        ensures same { self.new.tells ≡ self.old.tells }
        // What is held afterwards, and the answer.
        ensures takes { (came : Came) × Answers came result
            × Takes came from entries.now self.old.held self.new.held }
        ensures legal { MayBeHeld (self.new.held.history ++ self.new.held.pending) }

        // Each image of each moment of the call stands for the history from before, with or without what was pending,
        // or for the one from now with what is pending now. An unborn one stands for the empty history.
        ensures any_moment { self.old.tells ≡ true
            → LeavesOnly self.old.disk self.new.disk (ShowsLeft self.old.held self.new.held) }
        ensures kept { self.old.tells ≡ true → IsKept self.new.held self.new.disk }
        // Where nothing was pending and no entry is past those held, the disk isn't asked.
        ensures untouched { self.old.held.pending ≡ [] → self.new.held ≡ self.old.held
            → OnOk result (IsSameDisk self.old self.new) }

        ensures soundly { self.old.tells ≡ true → IsSoundly result }
        // A repair takes no memory once a journal is there.
        ensures memory { OnMemory result (self.old.held.history ≢ [] → self.new.held.pending ≡ []) }
        ensures cause { HasCause result self.old.count self.new.count }
        ensures never_falls { self.old.count ≤ self.new.count }
    {
        let before = self.faults();
        match self.repair(alloc, before) {
            Ok(()) => {
                let taken = self.take_decided(alloc, from, entries, before);
                self.tell();
                taken
            }
            Err(fault) => {
                self.tell();
                Err(fault)
            }
        }
    }

    /// Takes a page while nothing is pending.
    fn take_decided(
        &mut self,
        alloc: Global,
        from: u32,
        entries: &[Entry],
        before: u64,
    ) -> Result<u32, FollowFault>
        requires decided { self.old.held.pending ≡ [] }
        requires from { 1 ≤ from }
        requires fits { length (spelling entries.now) ≤ MAX_PAYLOAD }
        ensures same { self.new.tells ≡ self.old.tells }
        ensures takes { (came : Came) × Answers came result
            × Takes came from entries.now self.old.held self.new.held }
        ensures any_moment { self.old.tells ≡ true
            → LeavesOnly self.old.disk self.new.disk (ShowsLeft self.old.held self.new.held) }
        ensures untouched { self.new.held ≡ self.old.held → OnOk result (IsSameDisk self.old self.new) }
        ensures soundly { self.old.tells ≡ true → IsSoundly result }
        ensures memory { OnMemory result (self.new.held.pending ≡ []) }
        ensures cause { HasCountFrom before result self.old.count self.new.count }
        ensures never_falls { self.old.count ≤ self.new.count }
    {
        self.tell();
        let more = self.past(from, entries)?;
        if more.is_empty() {
            return Ok(0);
        }
        let place = self.history().len() as u32;
        self.store(alloc, place, more, before)?;
        Ok(more.len() as u32)
    }

    /// The entries of a page past those that are held, which are compared.
    fn past<'e>(&self, from: u32, entries: &'e [Entry]) -> Result<&'e [Entry], FollowFault>
        requires { 1 ≤ from }
        ensures past { IfOk result (λ past. IsPast self.now.held.history from entries.now past.now) }
        ensures refused { IfErr result (IsRefused self.now.held.history from entries.now) }
    {
        let held = self.history();
        let place = from as usize - 1;
        if place > held.len() {
            return Err(FollowFault::Gap {
                from,
                have: held.len() as u32,
            });
        }
        let beside = &held[place..];
        if let Some(i) = first_difference(beside, entries) {
            return Err(FollowFault::Foreign(from - 1 + i as u32));
        }
        Ok(&entries[beside.len().min(entries.len())..])
    }

    /// Finds out whether what is pending was kept. Where nothing is pending, nothing is done.
    fn repair(&mut self, alloc: Global, before: u64) -> Result<(), FollowFault>
        ensures { Mends before result self.old self.new }
    {
        let Some(place) = self.place.take() else {
            unreachable!();
        };
        let (place, repaired) = place.repaired(alloc, before);
        put_back(&mut self.place, place);
        repaired
    }

    /// Stores entries behind those held, while nothing is pending. The first of them has this place.
    fn store(
        &mut self,
        alloc: Global,
        place: u32,
        entries: &[Entry],
        before: u64,
    ) -> Result<(), FollowFault>
        requires decided { self.old.held.pending ≡ [] }
        requires some { entries.now ≢ [] }
        requires fits { length (spelling entries.now) ≤ MAX_RECORD_BYTES }
        requires place { place ≡ length self.old.held.history }
        ensures { Puts before place entries.now result self.old self.new }
    {
        let Some(held) = self.place.take() else {
            unreachable!();
        };
        let (held, stored) = held.stored(alloc, place, entries, before);
        put_back(&mut self.place, held);
        stored
    }

    /// The history, without what is pending.
    pub fn history(&self) -> &[Entry]
        ensures value { result.now ≡ self.now.held.history }
        ensures legal { MayBeHeld self.now.held.history }
    {
        match &self.place {
            Some(Place::Open(store)) => store.history(),
            _ => &[],
        }
    }

    /// How often the disk has failed so far.
    pub fn faults(&self) -> u64
        ensures { result ≡ self.now.count }
    {
        match &self.place {
            Some(Place::Unborn(disk)) => disk.faults(),
            Some(Place::Begun(begun)) => begun.disk.faults(),
            Some(Place::Open(store)) => store.faults(),
            None => unreachable!(),
        }
    }

    /// What holds of a follower at any time, for contracts alone.
    pub(crate) fn tell(&self)
        ensures legal { MayBeHeld (self.now.held.history ++ self.now.held.pending) }
        ensures kept { self.now.tells ≡ true → IsKept self.now.held self.now.disk }
    {
        let _ = &self.place;
    }

    /// The disk of the follower.
    pub fn into_disk(self) -> D
        ensures same { D.tells result ≡ self.tells }
        ensures disk { D.told result ≡ self.disk }
        ensures count { D.count result ≡ self.count }
        ensures kept { self.tells ≡ true → IsKept self.held self.disk }
    {
        match self.place {
            Some(Place::Unborn(disk)) => disk,
            Some(Place::Begun(begun)) => begun.disk,
            Some(Place::Open(store)) => store.into_disk(),
            None => unreachable!(),
        }
    }
}

/// Puts a place back that was taken out.
fn put_back<D: Disk>(slot: &mut Option<Place<D>>, place: Place<D>)
    requires { slot.old ≡ None }
    ensures { slot.new ≡ Some place }
{
    match mem::replace(slot, Some(place)) {
        None => {}
        Some(_) => unreachable!(),
    }
}
