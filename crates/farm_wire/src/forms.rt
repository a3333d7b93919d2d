//! The forms of a command's members.

ghost use Rattle.std.specs.Prelude.{◌≡◌, option_map};
ghost use Rattle.json_tape.specs.Views.{data_of};
ghost use Rattle.farm_wire.specs.Forms as form;
ghost use Rattle.farm_wire.specs.Made as made;

use crate::verb::Verb;
use farm_entry::Command;
use farm_types::{CommitId, Key, Moment};
use json_tape::Parsed;
use suspect_range::Suspect;
use uuid::Uuid;
use weight_exact::Verdict;

/// A whole number below 2^32.
#[tactic(auto, unfolding(crate::specs::Forms::small, crate::specs::Forms::whole))]
pub(crate) fn small(value: Parsed<'_, '_>) -> Option<u32>
    ensures { result ≡ form.small (data_of value.entry) }
{
    u32::try_from(value.as_u64()?).ok()
}

/// A number of a run or a search, from 1.
#[tactic(auto, unfolding(crate::specs::Forms::ordinal))]
pub(crate) fn ordinal(value: Parsed<'_, '_>) -> Option<u32>
    ensures { result ≡ form.ordinal (data_of value.entry) }
{
    let number = small(value)?;
    if number == 0 { None } else { Some(number) }
}

/// A moment, in milliseconds since 1970-01-01 in UTC.
#[tactic(auto, unfolding(crate::specs::Forms::moment, crate::specs::Forms::whole))]
pub(crate) fn moment(value: Parsed<'_, '_>) -> Option<Moment>
    ensures { result ≡ form.moment (data_of value.entry) }
{
    moment_at(value.as_u64()?)
}

fn moment_at(ms: u64) -> Option<Moment>
    ensures { result ≡ made.moment_at ms }
{
    Moment::of(ms).ok()
}

/// A key, in one of the forms of a UUID.
#[tactic(auto, unfolding(crate::specs::Forms::key))]
pub(crate) fn key(value: Parsed<'_, '_>) -> Option<Key>
    ensures { result ≡ form.key (data_of value.entry) }
{
    key_named(value.as_str()?)
}

fn key_named(text: &str) -> Option<Key>
    ensures { result ≡ form.key_named text.now }
{
    match Uuid::parse_str(text) {
        Ok(id) => Some(Key(id.as_u128())),
        Err(_) => None,
    }
}

/// The id of a commit.
#[tactic(auto, unfolding(crate::specs::Forms::commit))]
pub(crate) fn commit(value: Parsed<'_, '_>) -> Option<CommitId>
    ensures { result ≡ form.commit (data_of value.entry) }
{
    id_named(value.as_str()?)
}

fn id_named(text: &str) -> Option<CommitId>
    ensures { result ≡ made.id_named text.now }
{
    CommitId::read(text).ok()
}

/// What a report of a run asks for, by what it has for a verdict: `skip` says that the run's tree can't be tested.
#[tactic(auto, unfolding(crate::specs::Forms::report))]
pub(crate) fn report(run: u32, value: Parsed<'_, '_>) -> Option<Command>
    ensures { result ≡ form.report run (data_of value.entry) }
{
    report_named(run, value.as_str()?)
}

fn report_named(run: u32, text: &str) -> Option<Command>
    ensures { result ≡ form.report_named run text.now }
{
    match text {
        "pass" => Some(Command::Report {
            run,
            verdict: Verdict::Pass,
        }),
        "fail" => Some(Command::Report {
            run,
            verdict: Verdict::Fail,
        }),
        "skip" => Some(Command::Skip { run }),
        _ => None,
    }
}

/// What a line asks for.
#[tactic(auto, unfolding(crate::specs::Forms::verb))]
pub(crate) fn verb(value: Parsed<'_, '_>) -> Option<Verb>
    ensures { result ≡ form.verb (data_of value.entry) }
{
    verb_named(value.as_str()?)
}

fn verb_named(text: &str) -> Option<Verb>
    ensures { result ≡ form.verb_named text.now }
{
    match text {
        "open" => Some(Verb::Open),
        "lease" => Some(Verb::Lease),
        "report" => Some(Verb::Report),
        "cancel" => Some(Verb::Cancel),
        "revert" => Some(Verb::Revert),
        "search" => Some(Verb::Search),
        "farm" => Some(Verb::Farm),
        "orders" => Some(Verb::Orders),
        "runs" => Some(Verb::Runs),
        "list" => Some(Verb::List),
        _ => None,
    }
}

/// The items of an array of two.
#[tactic(auto, unfolding(crate::specs::Forms::two_in))]
fn two_in<'t, 'a>(value: Parsed<'t, 'a>) -> Option<(Parsed<'t, 'a>, Parsed<'t, 'a>)>
    ensures { option_map (λ p. (data_of p.0, data_of p.1)) result ≡ form.two_in (data_of value.entry) }
{
    let mut items = value.items()?;
    let first = items.next()?;
    let second = items.next()?;
    match items.next() {
        Some(_) => None,
        None => Some((first, second)),
    }
}

/// A fraction, as its numerator and its denominator.
#[tactic(auto, unfolding(crate::specs::Forms::fraction))]
pub(crate) fn fraction(value: Parsed<'_, '_>) -> Option<(u32, u32)>
    ensures { result ≡ form.fraction (data_of value.entry) }
{
    let (numerator, denominator) = two_in(value)?;
    Some((small(numerator)?, small(denominator)?))
}

/// A suspect, as its commit and its weight.
#[tactic(auto, unfolding(crate::specs::Forms::suspect))]
pub(crate) fn suspect(value: Parsed<'_, '_>) -> Option<Suspect>
    ensures { result ≡ form.suspect (data_of value.entry) }
{
    let (id, weight) = two_in(value)?;
    let commit = commit(id)?;
    let weight = small(weight)?;
    Some(Suspect { commit, weight })
}
