//! A source in memory.
ghost use Rattle.std.specs.Prelude.{◌≡◌, ◌<◌, ◌↔◌, ◌++◌, ◌==◌, [], None, Some, false, drop, take, length, min};
ghost use Rattle.common_types.specs.Counts.{Rose};
ghost use Rattle.link_io.specs.Notes.{no_output};
ghost use Rattle.link_io.specs.Took.{IfTook, OnTookFailed};
ghost use Rattle.link_io.specs.Pieces.{piece_room};
ghost use Rattle.link_io.specs.MemInput.{fresh_input};
ghost use Rattle.link_io.specs.FaultPlan.{fresh_plan, NextFails, plan_after_success, plan_after_fault};

use super::fault_plan::FaultPlan;
use super::mem_input::MemInput;
use crate::{Source, Took};
use std::marker::Model;

/// Bytes in memory as a source, which tells what is left and what was taken. It may cut them into pieces, and fails at
/// the calls that are listed.
///
/// Contracts see it as its input and the plan of the calls that are to fail.
#[derive(Drop)]
pub struct MemSource {
    input: MemInput,
    plan: FaultPlan,
}

impl Model for MemSource {
    ghost use Rattle.link_io.specs.MemSource.{SourceInMemory};

    ghost Value = { SourceInMemory };

    ghost view = { λ s. record { input = s.input; plan = s.plan } };
}

impl MemSource {
    /// A source of these bytes that answers as many as the buffer has room for. The takes whose numbers are in `fails`
    /// will fail, where the first take is number 1.
    pub fn of(bytes: Vec<u8>, fails: Vec<u64>) -> MemSource
        ensures { result ≡ record { input = fresh_input bytes.items []; plan = fresh_plan fails.items } }
    {
        let uncut = Vec::new(*bytes.allocator());
        MemSource::in_pieces(bytes, uncut, fails)
    }

    /// The same in pieces: the first take answers at most `pieces[0]` bytes, the second at most `pieces[1]`, and so on,
    /// takes that fail included. The last piece repeats. A piece of 0 bytes, or no piece at all, sets no bound.
    pub fn in_pieces(bytes: Vec<u8>, pieces: Vec<usize>, fails: Vec<u64>) -> MemSource
        ensures { result ≡ record { input = fresh_input bytes.items pieces.items; plan = fresh_plan fails.items } }
    {
        MemSource {
            input: MemInput::of(bytes, pieces),
            plan: FaultPlan::of(fails),
        }
    }
}

impl Source for MemSource {
    ghost left = { λ s. Some s.input.left };

    ghost taken = { λ s. Some s.input.taken };

    ghost ended = { λ s. s.input.ended };

    ghost aside = { λ _. no_output };

    ghost count = { λ s. s.plan.faults };

    fn faults(&self) -> u64 {
        self.plan.faults()
    }

    fn take(&mut self, buf: &mut [u8]) -> Took
        requires { 0 < length buf.old }

        // A take fails exactly where the plan says so, and then it moves nothing.
        ensures fails { (result ≡ Took.Failed) ↔ NextFails self.old.plan }
        ensures failed { OnTookFailed result (self.new ≡ record {
          input = record self.old.input { ended = false };
          plan = plan_after_fault self.old.plan;
        }) }
        ensures rises { OnTookFailed result (Rose self.old.plan.faults self.new.plan.faults) }

        // Any other gives as many bytes as there are, up to the piece and the buffer.
        ensures size { IfTook result (λ n. n
            ≡ min (piece_room self.old.input.pieces self.old.plan.calls (length buf.old)) (length self.old.input.left)) }
        ensures bytes { IfTook result (λ n. take n buf.new ≡ take n self.old.input.left) }
        ensures took { IfTook result (λ n. self.new ≡ record {
          input = record self.old.input {
            left = drop n self.old.input.left;
            taken = self.old.input.taken ++ take n self.old.input.left;
            ended = n == 0;
          };
          plan = plan_after_success self.old.plan;
        }) }
    {
        let index = self.plan.calls();
        if self.plan.next_fails() {
            self.input.miss();
            return Took::Failed;
        }
        Took::Took(self.input.take(index, buf))
    }
}
