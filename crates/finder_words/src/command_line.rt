//! The commands as `clap` knows them: a command with one level of subcommands, each of which takes so many words. It
//! answers no call for help.

ghost use Rattle.std.specs.Prelude.{◌≡◌, IfOk, false};
ghost use Rattle.clap.specs.Words.{app_of, rule_of, with_subcommand};
ghost use Rattle.finder_words.specs.CommandLine.{bare, command_line, empty_line, leaf, needed, run_leaf, texts_of, with_words};

use clap::{Arg, Command};
use std::alloc::{AllocError, Global};

/// A command that takes no words and answers no call for help.
fn bare<'a>(alloc: Global, name: &'a str) -> Command<'a>
    ensures { app_of result ≡ bare name.entry.now }
{
    Command::new(alloc, name)
        .disable_help_flag(true)
        .disable_version_flag(true)
}

/// A word that has to stand in its place.
fn needed<'a>(alloc: Global, id: &'a str) -> Arg<'a>
    ensures rule { rule_of result ≡ needed id.entry.now }
    ensures local { result.global ≡ false }
{
    Arg::new(alloc, id).required(true)
}

/// A command that is followed by just these words.
fn leaf<'a>(alloc: Global, name: &'a str, ids: &[&'a str]) -> Result<Command<'a>, AllocError>
    ensures { IfOk result (λ command. app_of command ≡ leaf name.entry.now (texts_of ids.now)) }
{
    let mut command = bare(alloc, name);
    for id in ids {
        command = command.arg(needed(alloc, id))?;
    }
    Ok(command)
}

/// The command with one more subcommand, which is followed by just these words.
fn with_leaf<'a>(
    alloc: Global,
    line: Command<'a>,
    name: &'a str,
    ids: &[&'a str],
) -> Result<Command<'a>, AllocError>
    ensures { IfOk result (λ command. app_of command
        ≡ with_subcommand (app_of line.entry) (leaf name.entry.now (texts_of ids.now)).top) }
{
    line.subcommand(leaf(alloc, name, ids)?)
}

/// The command `run`, which may be followed by the name of a journal.
fn run_leaf<'a>(alloc: Global) -> Result<Command<'a>, AllocError>
    ensures { IfOk result (λ command. app_of command ≡ run_leaf) }
{
    bare(alloc, "run").arg(Arg::new(alloc, "journal"))
}

/// The command line without commands.
fn empty_line<'a>(alloc: Global) -> Command<'a>
    ensures { app_of result ≡ empty_line }
{
    bare(alloc, "finder")
        .no_binary_name(true)
        .disable_help_subcommand(true)
        .subcommand_required(true)
}

/// The command line of the program, without the program's own name.
pub(crate) fn command_line<'a>(alloc: Global) -> Result<Command<'a>, AllocError>
    ensures { IfOk result (λ line. app_of line ≡ command_line) }
{
    let line = empty_line(alloc);
    let line = with_leaf(alloc, line, "judge", &[])?;
    let line = line.subcommand(run_leaf(alloc)?)?;
    let line = with_leaf(
        alloc,
        line,
        "found",
        &["journal", "lease_ms", "daily", "zone"],
    )?;
    let line = with_leaf(alloc, line, "show", &["journal"])?;
    let line = with_leaf(alloc, line, "audit", &[])?;
    let line = with_leaf(
        alloc,
        line,
        "serve",
        &["journal", "address", "handlers", "links"],
    )?;
    let line = with_leaf(
        alloc,
        line,
        "work",
        &["address", "worker", "runs", "runner"],
    )?;
    let line = with_leaf(alloc, line, "rates", &["journal"])?;
    let line = with_leaf(alloc, line, "drill", &["searches", "workers"])?;
    let line = with_leaf(alloc, line, "follow", &["journal", "address", "rounds"])?;
    let line = with_leaf(alloc, line, "evidence", &["journal", "search"])?;
    let line = with_leaf(alloc, line, "close", &["journal"])?;
    with_leaf(
        alloc,
        line,
        "inherit",
        &["journal", "lease_ms", "daily", "zone"],
    )
}
