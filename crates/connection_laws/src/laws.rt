//! Laws of what is held of a connection. A function here does nothing: its contract is the law.
ghost use Rattle.std.specs.Prelude.{◌≡◌, ◌≤◌, ◌<◌, ◌+◌, ◌++◌, ℕ, List, [], ◌∷◌, length, Bool, true, false, Result};
ghost use Rattle.std.specs.List.{range_with_len};
ghost use Rattle.farm_entry.specs.Legal.{IsLegal};
ghost use Rattle.farm_entry.specs.Playing.{after};
ghost use Rattle.farm_entry.specs.declared.entry.Entry.{Entry};
ghost use Rattle.farm_store.specs.Answering.{AreAnswers, history_after};
ghost use Rattle.farm_store.specs.declared.asking.Ask.{Ask};
ghost use Rattle.farm_store.specs.declared.asking.TheConstants.{MAX_BATCH};
ghost use Rattle.link_io.specs.Links.{LinkState, fresh_link};
ghost use Rattle.http_requests.specs.Fields.{fields_of};
ghost use Rattle.http_requests.specs.Framing.{has_origin};
ghost use Rattle.http_requests.specs.Fronts.{Opens, behind};
ghost use Rattle.http_requests.specs.Items.{Item, Items, IsNext, IsRequest, End, closed};
ghost use Rattle.common_types.specs.Prefix.{IsPrefix};
ghost use Rattle.common_types.specs.declared.row.Row.{Row};
ghost use Rattle.common_types.specs.Counts.{Rose};
ghost use Rattle.connection_laws.specs.Answers.{item_bytes, transcript};
ghost use Rattle.connection_laws.specs.Batches.{AreAsked, AreAnsweredBy, AreAtOnce, failed_steps, uncalled_steps};
ghost use Rattle.connection_laws.specs.Owners.{Holding, none_owned};
ghost use Rattle.connection_laws.specs.Progress.{Progress, IsWithin, decision_on, progress_after, progress_from, recorded_place, recorded_places};
ghost use Rattle.connection_laws.specs.Held.{Held, HeldFrom, IsReadOut, StaysClosed, IsSoFar};
ghost use Rattle.connection_laws.specs.Marks.{Mark, Follows};
ghost use Rattle.connection_laws.specs.Moments.{GivenBy, IsTold, MayCount, given_by};
ghost use Rattle.connection_laws.specs.Outcomes.{Step, answered, failed, faulted, unread};
ghost use Rattle.connection_laws.specs.Serving.{IsHeldOf, Serves, is_whole};
ghost use Rattle.connection_laws.specs.Steps.{AreSteps, IsStep};
ghost use Rattle.connection_laws.specs.Told.{AreSaid, IsNoted, noted_in};
ghost use Rattle.connection_laws.specs.Worked.{cut_item, cut_bytes, foreign_item, foreign_bytes, lease_item, head_item, head_bytes, failed_bytes, no_memory_bytes};

use crate::{ServeFault, Served};
use farm_disk::Disk;
use farm_entry::{Answer, Refusal};
use http_words::{Allow, Fault};
use link_io::Clock;

/// What is said of each answer of which a byte was put, by the place of its first byte among the bytes put, and the
/// history that it tells of. Whoever cites a law picks it.
pub trait Said {
    ghost said: { ℕ → List Entry → Type 0 };
}

/// What is held for what was seen at exit is held for whatever is seen later.
pub fn held_for_later_marks<C: Clock, D: Disk, S: Said>(clock: &C)
    ensures { (start final later : Mark) (taken put : List ℕ) (over whole : Bool)
        → Follows final later → Held start final (GivenBy C.Clock clock.now D.count) S.said taken put over whole
        → Held start later (GivenBy C.Clock clock.now D.count) S.said taken put over whole }
{}

/// What is held from what a pass and a reader had seen at entry is held from each mark with which they began.
pub fn held_from_earlier_marks<C: Clock, D: Disk, S: Said>(clock: &C)
    ensures { (start final : Mark) (seen totals : List Entry) (faults : ℕ) (taken put : List ℕ)
        (over whole : Bool) → IsPrefix start.seen seen → IsPrefix start.totals totals → start.faults ≤ faults
        → HeldFrom (progress_from seen totals faults) final (GivenBy C.Clock clock.now D.count) S.said taken put over
        whole
        → Held start final (GivenBy C.Clock clock.now D.count) S.said taken put over whole }
{}

/// Where the whole is held a prefix is, and so is each shorter one.
pub fn whole_is_held_as_a_prefix<C: Clock, D: Disk, S: Said>(clock: &C)
    ensures whole { (start final : Mark) (taken put : List ℕ) (over : Bool)
        → Held start final (GivenBy C.Clock clock.now D.count) S.said taken put over true
        → Held start final (GivenBy C.Clock clock.now D.count) S.said taken put over false }
    ensures shorter { (start final : Mark) (taken put less : List ℕ) (over : Bool)
        → IsPrefix less put → Held start final (GivenBy C.Clock clock.now D.count) S.said taken put over false
        → Held start final (GivenBy C.Clock clock.now D.count) S.said taken less over false }
{}

/// The mark at exit follows the mark at entry.
pub fn what_is_held_goes_on<C: Clock, D: Disk, S: Said>(clock: &C)
    ensures { (start final : Mark) (taken put : List ℕ) (over whole : Bool)
        → Held start final (GivenBy C.Clock clock.now D.count) S.said taken put over whole → Follows start final }
{}

/// It begins with no item: nothing was put yet, which is a prefix of the answers to the items of whatever was taken.
/// Of a connection on which nothing came it is the whole.
pub fn nothing_is_answered_at_first<C: Clock, D: Disk, S: Said>(clock: &C)
    ensures so_far { (start : Progress) (taken : List ℕ)
        → IsSoFar start (GivenBy C.Clock clock.now D.count) S.said taken [] [] [] }
    ensures held { (start final : Mark) (taken : List ℕ) (over : Bool) (items : List Item) (end : End)
        → Items taken items end → IsLegal start.totals → Follows start final
        → Held start final (GivenBy C.Clock clock.now D.count) S.said taken [] over false }
    ensures silent { (start final : Mark) → Follows start final
        → Held start final (GivenBy C.Clock clock.now D.count) S.said [] [] true true }
{}

/// More bytes that are taken change nothing of the items so far.
pub fn more_is_taken<C: Clock, D: Disk, S: Said>(clock: &C)
    ensures { (start : Progress) (taken more put : List ℕ) (items : List Item) (steps : List Step)
        → IsSoFar start (GivenBy C.Clock clock.now D.count) S.said taken put items steps
        → IsSoFar start (GivenBy C.Clock clock.now D.count) S.said (taken ++ more) put items steps }
{}

/// The items behind those so far are answered, and none of them closes.
pub fn more_is_answered<C: Clock, D: Disk, S: Said>(clock: &C)
    ensures { (start : Progress) (taken put : List ℕ) (items more : List Item) (steps rest : List Step)
        → IsSoFar start (GivenBy C.Clock clock.now D.count) S.said taken put items steps
        → Opens (behind taken items) more → AreSteps (GivenBy C.Clock clock.now D.count) (progress_after start steps)
        more rest
        → AreSaid S.said (length put) more rest
        → IsSoFar start (GivenBy C.Clock clock.now D.count) S.said taken (put ++ transcript more rest) (items ++ more)
        (steps ++ rest) }
{}

/// The serving stops on the way: a part was put of the answers to some items behind those so far. It is a prefix of the
/// answers to all items, however many stand behind those: there are steps to which they may come, within what is seen
/// at exit.
pub fn a_part_is_held<C: Clock, D: Disk, S: Said>(clock: &C)
    ensures { (start : Progress) (final : Mark) (taken put part : List ℕ) (over : Bool)
        (items more others : List Item) (steps rest : List Step) (end : End)
        → IsSoFar start (GivenBy C.Clock clock.now D.count) S.said taken put items steps
        → Items (behind taken items) (more ++ others) end
        → AreSteps (GivenBy C.Clock clock.now D.count) (progress_after start steps) more rest → IsLegal start.totals
        → IsPrefix part (transcript more rest) → IsWithin (progress_after (progress_after start steps) rest) final
        → AreSaid S.said (length put) more rest
        → HeldFrom start final (GivenBy C.Clock clock.now D.count) S.said taken (put ++ part) over false }
{}

/// The serving ends: all items behind those so far are answered, and no more had to be taken.
pub fn the_whole_is_held<C: Clock, D: Disk, S: Said>(clock: &C)
    ensures whole { (start : Progress) (final : Mark) (taken put : List ℕ) (over : Bool)
        (items more : List Item) (steps rest : List Step) (end : End)
        → IsSoFar start (GivenBy C.Clock clock.now D.count) S.said taken put items steps
        → Items (behind taken items) more end → AreSteps (GivenBy C.Clock clock.now D.count)
        (progress_after start steps) more rest
        → IsReadOut taken (items ++ more) end over → IsWithin (progress_after (progress_after start steps) rest) final
        → AreSaid S.said (length put) more rest
        → HeldFrom start final (GivenBy C.Clock clock.now D.count) S.said taken (put ++ transcript more rest) over
        true }
    ensures shut { (taken : List ℕ) (items : List Item) (item : Item)
        → Opens taken items → item.closes ≡ true
        → ((more : List ℕ) → IsNext (behind taken items ++ more) item)
        → StaysClosed taken (items ++ item ∷ []) closed }
{}

/// What the serving of a new link came to is held from each mark with which its pass and its reader began, for
/// whatever is seen later: the whole where it was served to its end, and else a prefix.
pub fn what_is_served_is_held<C: Clock, D: Disk>(clock: &C)
    ensures { (result : Result Served ServeFault) (start final later : Mark) (seen totals read : List Entry)
        (faults : ℕ) (rows : List Row) (link : LinkState) (mine kept : Holding)
        → mine.owned ≡ none_owned → IsPrefix start.seen seen → IsPrefix start.totals totals → start.faults ≤ faults
        → Follows final later
        → Serves result (progress_from seen totals faults) final (GivenBy C.Clock clock.now D.count)
        (noted_in rows fresh_link link) fresh_link link mine kept read
        → IsHeldOf start later (GivenBy C.Clock clock.now D.count) (λ notes. IsNoted rows notes)
        kept.owned link (is_whole result) }
{}

/// What is held with the moments that a clock may give is held with the one moment that the clock tells, where it does.
pub fn held_by_the_moment_told<C: Clock, D: Disk, S: Said>(clock: &C)
    ensures { (start final : Mark) (taken put : List ℕ) (over whole : Bool)
        → Held start final (GivenBy C.Clock clock.now D.count) S.said taken put over whole
        → Held start final (given_by (IsTold (C.told clock.now)) (MayCount D.count)) S.said taken put over whole }
{}

/// A batch that the farm answered: each item comes to its answer, and the places of what they recorded are the last
/// ones of the history that they leave.
pub fn a_batch_is_answered<C: Clock, D: Disk>(clock: &C)
    ensures are_steps { (c : Progress) (H : List Entry) (items : List Item) (asks : List Ask)
        (answers : List Answer) (steps : List Step)
        → AreAsked (GivenBy C.Clock clock.now D.count) items asks → IsPrefix c.seen H → AreAnswers H asks answers
        → AreAnsweredBy H asks answers steps
        → AreSteps (GivenBy C.Clock clock.now D.count) c items steps }
    ensures progress_after { (c : Progress) (H : List Entry) (asks : List Ask) (answers : List Answer)
        (steps : List Step)
        → IsPrefix c.seen H → AreAnsweredBy H asks answers steps
        → IsPrefix (progress_after c steps).seen (history_after H asks)
        × ((progress_after c steps).totals ≡ c.totals) × ((progress_after c steps).faults ≡ c.faults) }
    ensures places { (H : List Entry) (asks : List Ask) (answers : List Answer) (steps : List Step) (recorded : ℕ)
        → AreAnsweredBy H asks answers steps → length (history_after H asks) ≡ length H + recorded
        → recorded_places steps ≡ range_with_len (length H) recorded }
{}

/// A batch whose call ended by a fault of the disk: all its items share the counts.
pub fn a_batch_fails<C: Clock, D: Disk>(clock: &C)
    ensures are_steps { (c : Progress) (H : List Entry) (before count : ℕ) (item : Item) (items : List Item)
        (asks : List Ask)
        → AreAsked (GivenBy C.Clock clock.now D.count) (item ∷ items) asks → AreAtOnce items → length asks ≤ MAX_BATCH
        → IsPrefix c.seen H
        → c.faults ≤ before → Rose before count → MayCount D.count before → MayCount D.count count
        → AreSteps (GivenBy C.Clock clock.now D.count) c (item ∷ items) (failed_steps H asks before count) }
    ensures progress_after { (c : Progress) (H : List Entry) (before count : ℕ) (ask : Ask) (asks : List Ask)
        → let d = progress_after c (failed_steps H (ask ∷ asks) before count) in
        (d.seen ≡ H) × (d.totals ≡ c.totals) × (d.faults ≡ count) }
    ensures places { (H : List Entry) (before count : ℕ) (asks : List Ask)
        → recorded_places (failed_steps H asks before count) ≡ [] }
{}

/// A batch for whose call memory ran out.
pub fn a_batch_finds_no_memory<C: Clock, D: Disk>(clock: &C)
    ensures are_steps { (c : Progress) (H : List Entry) (items : List Item) (asks : List Ask)
        → AreAsked (GivenBy C.Clock clock.now D.count) items asks → IsPrefix c.seen H
        → AreSteps (GivenBy C.Clock clock.now D.count) c items (uncalled_steps H asks) }
    ensures progress_after { (c : Progress) (H : List Entry) (asks : List Ask)
        → IsPrefix c.seen H → let d = progress_after c (uncalled_steps H asks) in
        IsPrefix d.seen H × (d.totals ≡ c.totals) × (d.faults ≡ c.faults) }
    ensures places { (H : List Entry) (asks : List Ask) → recorded_places (uncalled_steps H asks) ≡ [] }
{}

/// No request with a field named `Origin` adds an entry, whatever its method and whatever stands in the field: what it
/// comes to records none, and where the farm answers its command, the history stays as it was.
pub fn no_request_of_a_page_adds_an_entry<C: Clock, D: Disk>(clock: &C)
    ensures records { (c : Progress) (bytes : List ℕ) (item : Item) (step : Step) (request : IsRequest bytes item)
        → has_origin (fields_of request.head) ≡ true → IsStep (GivenBy C.Clock clock.now D.count) c item step
        → recorded_place step.outcome ≡ [] }
    ensures stays { (c : Progress) (bytes : List ℕ) (item : Item) (step : Step) (request : IsRequest bytes item)
        → has_origin (fields_of request.head) ≡ true → IsStep (GivenBy C.Clock clock.now D.count) c item step
        → (H : List Entry) (ask : Ask) (a : Answer)
        → step.outcome ≡ answered H ask a → after H (decision_on H ask) ≡ H }
{}

/// Answers as they are put, worked out by hand: to a request whose body is cut off, to the POST of a page, on a path
/// that has other methods, where the disk failed, and where memory ran out, also for the text of an answer.
pub fn worked_answers()
    ensures cut { item_bytes cut_item (record { outcome = faulted Fault.BadRequest; written = true }) ≡ cut_bytes }
    ensures foreign { item_bytes foreign_item (record { outcome = faulted Fault.Foreign; written = true })
        ≡ foreign_bytes }
    ensures head { item_bytes head_item (record {
      outcome = faulted (Fault.MethodNotAllowed Allow.Post);
      written = true;
    })
        ≡ head_bytes }
    ensures failed { (H : List Entry) (ask : Ask)
        → item_bytes lease_item (record { outcome = failed H ask 0 1; written = true }) ≡ failed_bytes }
    ensures unread { item_bytes lease_item (record { outcome = unread; written = true }) ≡ no_memory_bytes }
    ensures unwritten { (H : List Entry) (ask : Ask)
        → item_bytes lease_item (record { outcome = answered H ask (Answer.Refused Refusal.NoRun); written = false })
        ≡ no_memory_bytes }
{}
