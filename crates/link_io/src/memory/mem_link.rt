//! A link in memory.
ghost use Rattle.std.specs.Prelude.{
  ◌≡◌,
  ◌<◌,
  ◌↔◌,
  ◌++◌,
  ◌∷◌,
  ◌==◌,
  [],
  Some,
  false,
  drop,
  take,
  length,
  min,
  refl,
};
ghost use Rattle.common_types.specs.Counts.{Rose, next_count};
ghost use Rattle.link_io.specs.Took.{IfTook, OnTookFailed};
ghost use Rattle.link_io.specs.Put.{IfPut, OnPutFailed};
ghost use Rattle.link_io.specs.Pieces.{piece_room};
ghost use Rattle.link_io.specs.MemLink.{unused_link, afresh};
ghost use Rattle.link_io.specs.FaultPlan.{NextFails, plan_after_success, plan_after_fault};
ghost use Rattle.common_types.specs.Moments.{passed_at};

use super::fault_plan::FaultPlan;
use super::mem_input::MemInput;
use crate::{Link, Put, Sink, Source, Took};
use common_types::{Passed, ToldList};
use std::marker::Model;
use std::snapshot::Snapshot;

/// A note that was taken, for contracts alone: the number of the bytes put by then, and the moment that was over.
#[derive(Drop)]
pub struct Noted {
    put: u64,
    over: Snapshot<Passed>,
}

/// A link in memory: it gives bytes that were stated before, in pieces if they were, and keeps what is put to it. It
/// tells all of that, and fails at the calls that are listed.
///
/// Contracts see it as its input, the number of its takes, the bytes put, the plan of the calls that are to fail, and
/// the notes that it took.
#[derive(Drop)]
pub struct MemLink {
    input: MemInput,
    takes: u64,
    put: Vec<u8>,
    plan: FaultPlan,
    notes: ToldList<Noted>,
}

impl Model for MemLink {
    ghost use Rattle.std.specs.Prelude.{map};
    ghost use Rattle.link_io.specs.MemLink.{LinkInMemory, note_of};

    ghost Value = { LinkInMemory };

    ghost view = { λ l. record {
      input = l.input;
      takes = l.takes;
      put = l.put.items;
      plan = l.plan;
      notes = map note_of l.notes;
    } };
}

impl MemLink {
    /// A link whose other end has sent these bytes, and then no more. A take answers as many as the buffer has room
    /// for. The calls whose numbers are in `fails` will fail, takes and puts counted together from 1.
    pub fn of(bytes: Vec<u8>, fails: Vec<u64>) -> MemLink
        ensures { result ≡ unused_link bytes.items [] fails.items }
    {
        let uncut = Vec::new(*bytes.allocator());
        MemLink::in_pieces(bytes, uncut, fails)
    }

    /// The same in pieces: the first take answers at most `pieces[0]` bytes, the second at most `pieces[1]`, and so on,
    /// takes that fail included. The last piece repeats. A piece of 0 bytes, or no piece at all, sets no bound.
    pub fn in_pieces(bytes: Vec<u8>, pieces: Vec<usize>, fails: Vec<u64>) -> MemLink
        ensures { result ≡ unused_link bytes.items pieces.items fails.items }
    {
        let put = Vec::new(*bytes.allocator());
        MemLink {
            input: MemInput::of(bytes, pieces),
            takes: 0,
            put,
            plan: FaultPlan::of(fails),
            notes: ToldList::new(),
        }
    }

    /// The bytes that were put.
    pub fn bytes(&self) -> &[u8]
        ensures { result.now ≡ self.now.put }
    {
        &self.put
    }

    /// The link as it was before its first call.
    pub fn afresh(self) -> MemLink
        ensures { result ≡ afresh self }
    {
        let put = Vec::new(*self.put.allocator());
        MemLink {
            input: self.input.afresh(),
            takes: 0,
            put,
            plan: self.plan.afresh(),
            notes: ToldList::new(),
        }
    }
}

impl Source for MemLink {
    ghost left = { λ l. Some l.input.left };

    ghost taken = { λ l. Some l.input.taken };

    ghost ended = { λ l. l.input.ended };

    ghost aside = { λ l. record { written = Some l.put; notes = Some l.notes } };

    ghost count = { λ l. l.plan.faults };

    fn faults(&self) -> u64 {
        self.plan.faults()
    }

    fn take(&mut self, buf: &mut [u8]) -> Took
        requires { 0 < length buf.old }

        // A take fails exactly where the plan says so, and then it moves nothing.
        ensures fails { (result ≡ Took.Failed) ↔ NextFails self.old.plan }
        ensures failed { OnTookFailed result (self.new ≡ record self.old {
          input = record self.old.input { ended = false };
          takes = next_count self.old.takes;
          plan = plan_after_fault self.old.plan;
        }) }
        ensures rises { OnTookFailed result (Rose self.old.plan.faults self.new.plan.faults) }

        // Any other gives as many bytes as there are, up to the piece and the buffer, and keeps those that were put.
        ensures size { IfTook result (λ n. n
            ≡ min (piece_room self.old.input.pieces self.old.takes (length buf.old)) (length self.old.input.left)) }
        ensures bytes { IfTook result (λ n. take n buf.new ≡ take n self.old.input.left) }
        ensures took { IfTook result (λ n. self.new ≡ record self.old {
          input = record self.old.input {
            left = drop n self.old.input.left;
            taken = self.old.input.taken ++ take n self.old.input.left;
            ended = n == 0;
          };
          takes = next_count self.old.takes;
          plan = plan_after_success self.old.plan;
        }) }
    {
        let index = self.takes;
        self.takes = index.saturating_add(1);
        if self.plan.next_fails() {
            self.input.miss();
            return Took::Failed;
        }
        Took::Took(self.input.take(index, buf))
    }
}

impl Sink for MemLink {
    ghost use Rattle.link_io.specs.Intake.{Intake};

    ghost written = { λ l. Some l.put };

    ghost aside = { λ l. record {
      left = Some l.input.left;
      taken = Some l.input.taken;
      ended = l.input.ended;
      notes = Some l.notes;
    } };

    ghost count = { λ l. l.plan.faults };

    fn faults(&self) -> u64 {
        self.plan.faults()
    }

    fn put(&mut self, bytes: &[u8]) -> Put
        // A put fails exactly where the plan says so, and then it only counts.
        ensures fails { (result ≡ Put.Failed) ↔ NextFails self.old.plan }
        ensures failed { OnPutFailed result
            (self.new ≡ record self.old { plan = plan_after_fault self.old.plan }) }
        ensures rises { OnPutFailed result (Rose self.old.plan.faults self.new.plan.faults) }

        // Any other puts the whole piece, unless memory runs out, and keeps what was taken.
        ensures size { IfPut result (λ n. n ≡ length bytes.now) }
        ensures put { IfPut result (λ _. self.new
            ≡ record self.old { put = self.old.put ++ bytes.now; plan = plan_after_success self.old.plan }) }
        ensures memory { result ≡ Put.Memory
            → self.new ≡ record self.old { plan = plan_after_success self.old.plan } }
    {
        if self.plan.next_fails() {
            return Put::Failed;
        }
        match self.put.extend_from_slice(bytes) {
            Ok(()) => Put::Put(bytes.len()),
            Err(_) => Put::Memory,
        }
    }
}

impl Link for MemLink {
    type Over = Passed;

    fn note_idle(&mut self) {}

    fn note_over(&mut self, over: &Passed)
        ensures { self.new ≡ record self.old {
          notes = record { put = length self.old.put; moment = passed_at over.now } ∷ self.old.notes;
        } }
    {
        self.notes.tell(&Noted {
            put: self.put.len() as u64,
            over: Snapshot::of(over),
        });
    }

    ghost one_count = { λ _. refl };

    ghost written_aside = { λ _. refl };

    ghost taken_aside = { λ _. refl };
}
