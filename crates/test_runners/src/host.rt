//! A test host, and how it is asked.
ghost use Rattle.std.specs.Prelude.{◌≡◌, ◌<◌, ◌≤◌, ◌↔◌, ℕ, List, [], true, IfOk, IfSome, OnErr, length};
ghost use Rattle.std.specs.Io.KnownBytes.{append_known};
ghost use Rattle.http_exchange.specs.Exchanges.{Exchange, Talk, exchange_events, talk_state, talked, tell_all};
ghost use Rattle.link_io.specs.Links.{fresh_link, link_state};
ghost use Rattle.link_io.specs.Telling.{add_told};
ghost use Rattle.link_io.specs.Events.{returned};
ghost use Rattle.test_runners.specs.Host.{IsAsked, Says, SaysOver, answer_of, line_of, question_of};

use arrayvec::ArrayVec;
use farm_types::{CommitId, ID_DIGITS, NAME_MAX_BYTES, Name};
use link_io::{Connected, Link, Network, TakeFailed, put_all, take_piece};
use weight_exact::Verdict;
use worker_core::Tested;

/// The greatest length of a question in bytes: an id, a space, a name and a line feed.
const QUESTION_BYTES: usize = 242;

/// The greatest length of an answer in bytes, with its line feed.
const ANSWER_BYTES: usize = 5;

/// How many bytes are taken of an answer at most: one more than an answer has.
const LOOK_BYTES: usize = ANSWER_BYTES + 1;

/// Asks the host behind a network what comes of a test at a commit, over a connection of its own, which is given back.
/// None where the host doesn't say.
pub(crate) fn ask_host<N: Network>(
    network: &mut N,
    test: &Name,
    commit: &CommitId,
) -> Option<Tested>
    ensures { (x : Exchange) × (N.told network.new ≡ tell_all (exchange_events x) (N.told network.old))
        × SaysOver (question_of commit.now test.now) x result }
{
    match network.connect() {
        Connected::Linked(link) => {
            let line = question(test, commit);
            ask_over(network, link, line.as_slice())
        }
        Connected::Failed => None,
    }
}

/// The same over a connection that was just made.
fn ask_over<N: Network>(network: &mut N, mut link: N::End, question: &[u8]) -> Option<Tested>
    requires fresh { IfSome (N.told network.old) (λ _. link_state N.End.Source N.End.Sink link ≡ fresh_link) }
    ensures { (t : Talk) × (N.told network.new ≡ add_told (returned (talk_state t)) (N.told network.old))
        × SaysOver question.now (talked t) result }
{
    let said = ask(&mut link, question);
    network.done(link);
    said
}

/// Puts a question to a connection and takes the answer.
fn ask<L: Link>(link: &mut L, question: &[u8]) -> Option<Tested>
    ensures asked { (sent taken : List ℕ)
        × (L.Sink.written link.new ≡ append_known (L.Sink.written link.old) sent)
        × (L.Source.taken link.new ≡ append_known (L.Source.taken link.old) taken)
        × IsAsked question.now sent taken (L.Source.ended link.new) (L.Source.count link.new) result }
    ensures notes { (L.Sink.aside link.new).notes ≡ (L.Sink.aside link.old).notes }
{
    match put_all(link, question) {
        Ok(()) => {}
        Err(_) => return None,
    }
    take_answer(link)
}

/// The line by which a host is asked: a commit's id in digits, a space, and the name of a test.
fn question(test: &Name, commit: &CommitId) -> ArrayVec<u8, QUESTION_BYTES>
    ensures { result.items ≡ question_of commit.now test.now }
{
    let mut digits = [0; ID_DIGITS];
    commit.digits(&mut digits);
    let mut line = ArrayVec::new();
    // There is room for all of it.
    let _id = line.try_extend_from_slice(&digits);
    let _space = line.try_push(b' ');
    let _name = line.try_extend_from_slice(test.text().as_bytes());
    let _end = line.try_push(b'\n');
    line
}

/// Takes an answer to the end of the input, or to one byte more than an answer has, and reads it. What came before a
/// take that failed is an answer where it is a whole line.
fn take_answer<L: Link>(link: &mut L) -> Option<Tested>
    ensures taken { (taken : List ℕ) × (L.Source.taken link.new ≡ append_known (L.Source.taken link.old) taken)
        × Says taken (L.Source.ended link.new) (L.Source.count link.new) result }
    ensures aside { L.Source.aside link.new ≡ L.Source.aside link.old }
{
    let mut answer = ArrayVec::<u8, LOOK_BYTES>::new();
    'takes: while answer.len() < LOOK_BYTES {
        let mut buf = [0u8; LOOK_BYTES];
        let room = LOOK_BYTES - answer.len();
        match take_more(link, &answer, &mut buf[..room]) {
            Ok(piece) => {
                if piece.is_empty() {
                    break;
                }
                // There is room for it.
                let _added = answer.try_extend_from_slice(piece);
            }
            Err(_) => return line_said(&answer),
        }
    }
    answer_said(&answer)
}

/// Takes what follows of an answer of which this has come. Where its line is whole, nothing is held any more, and the
/// link is told so: nothing but the end should come, and a host that keeps its connection open isn't waited for.
fn take_more<'a, L: Link>(
    link: &mut L,
    answer: &[u8],
    buf: &'a mut [u8],
) -> Result<&'a [u8], TakeFailed>
    requires { 0 < length buf.old }
    ensures few { IfOk result (λ piece. length piece.now ≤ length buf.old) }
    ensures adds { IfOk result (λ piece. L.Source.taken link.new ≡ append_known (L.Source.taken link.old) piece.now) }
    ensures last { IfOk result (λ piece. (L.Source.ended link.new ≡ true) ↔ (piece.now ≡ [])) }
    ensures aside { L.Source.aside link.new ≡ L.Source.aside link.old }
    ensures unadded { OnErr result (L.Source.taken link.new ≡ L.Source.taken link.old) }
    ensures failed { OnErr result (1 ≤ L.Source.count link.new) }
{
    if line_said(answer).is_some() {
        link.note_idle();
    }
    take_piece(link, buf)
}

/// What the whole of an answer says: the line `pass`, `fail` or `skip`, which may lack its line feed.
fn answer_said(answer: &[u8]) -> Option<Tested>
    ensures { result ≡ answer_of answer.now }
{
    if answer == b"pass".as_slice() {
        Some(Tested::Verdict(Verdict::Pass))
    } else if answer == b"fail".as_slice() {
        Some(Tested::Verdict(Verdict::Fail))
    } else if answer == b"skip".as_slice() {
        Some(Tested::Untestable)
    } else {
        line_said(answer)
    }
}

/// What a line says that has come whole, with its line feed, and with nothing behind it.
fn line_said(answer: &[u8]) -> Option<Tested>
    ensures { result ≡ line_of answer.now }
{
    if answer == b"pass\n".as_slice() {
        Some(Tested::Verdict(Verdict::Pass))
    } else if answer == b"fail\n".as_slice() {
        Some(Tested::Verdict(Verdict::Fail))
    } else if answer == b"skip\n".as_slice() {
        Some(Tested::Untestable)
    } else {
        None
    }
}
