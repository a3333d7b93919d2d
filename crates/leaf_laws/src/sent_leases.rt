//! What a farm answers to a request for a run, as a worker reads it. A function here does nothing: its contract is the
//! law.
ghost use Rattle.std.specs.Prelude.{◌≡◌, Ok, List, ℕ, true};
ghost use Rattle.farm_entry.specs.declared.answer.Answer.TheVariants.{Done, Refused};
ghost use Rattle.farm_entry.specs.declared.refusal.Refusal.TheVariants.{Closed, NoRun};
ghost use Rattle.farm_entry.specs.declared.reply.Reply.TheVariants.{Leased};
ghost use Rattle.farm_wire.specs.Answers.{answer_text};
ghost use Rattle.leaf_laws.specs.LeaseNumbers.{IsLease};
ghost use Rattle.worker_agent.specs.Answers.{lease_reading, tells_closed, tells_no_run};

use farm_types::{CommitId, Stage};

/// What a farm writes for a lease is read by a worker as that lease: the same run, test and commit.
pub fn leases_are_read_as_leases()
    ensures { (run search position deadline : ℕ) (stage : Stage) (commit : CommitId) (test : List ℕ)
        → IsLease run search position deadline test
        → lease_reading (answer_text (Done (Leased run search stage position commit test deadline)))
        ≡ Ok (record { run = run; test = test; commit = commit }) }
{}

/// What a farm writes where it has no run to hand out is read by a worker as that, where none is due and where the farm
/// is closed. That a closed farm takes no report is read as that.
pub fn no_run_is_read_as_no_run()
    ensures none_due { tells_no_run (answer_text (Refused NoRun)) ≡ true }
    ensures closed { tells_no_run (answer_text (Refused Closed)) ≡ true }
    ensures closed_to_reports { tells_closed (answer_text (Refused Closed)) ≡ true }
{}
