//! The command that an entry names, by which a request that is sent again is known again.

ghost use Rattle.std.specs.Prelude.{◌≡◌, IfOk};
ghost use Rattle.farm_entry.specs.Ask.{opening_of};
ghost use Rattle.farm_entry.specs.Decision.{asks_for, is_show, key_of, makes_opening};
ghost use Rattle.farm_entry.specs.Legal.{ask_of, command_of};

use crate::{Command, OpenAsk, Opening, Suspects, What};
use farm_types::{Key, Memory};
use std::alloc::Global;
use std::ops::Deref;

impl Opening {
    /// The open that the opening names: the search as it would be asked for, with its rates in lowest terms.
    pub fn ask(&self, alloc: Global) -> Result<OpenAsk, Memory>
        ensures { IfOk result (λ ask. ask ≡ ask_of self.now) }
    {
        Ok(OpenAsk {
            key: self.key,
            test: self.test.copy()?,
            base: self.range.commit(0),
            suspects: Suspects::of(Vec::from_slice(alloc, self.range.suspects())?),
            calm: self.range.calm(),
            rate: (self.rate.a(), self.rate.b()),
            miss: (self.miss.c(), self.miss.d()),
            bar: (self.bar.t(), self.bar.u()),
            width: u32::from(self.width),
            reruns: u32::from(self.reruns),
        })
    }

    /// Whether an open makes this very opening, its rates being compared in lowest terms and its bar as given.
    fn is_made_by(&self, alloc: Global, ask: &OpenAsk) -> Result<bool, Memory>
        ensures { IfOk result (λ same. same ≡ makes_opening self.now (opening_of ask.now self.now.search)) }
    {
        match ask.opening(alloc, self.search)? {
            Ok(made) => Ok(made == *self),
            Err(_) => Ok(false),
        }
    }
}

impl What {
    /// The command that the entry names, by its kind, key and contents. A founding, a carried order and a closing name
    /// none.
    pub fn command(&self, alloc: Global) -> Result<Option<Command>, Memory>
        ensures { IfOk result (λ command. command ≡ command_of self.now) }
    {
        match self {
            What::Founded { .. } | What::Carried { .. } | What::Closed => Ok(None),
            What::Opened(opening) => Ok(Some(Command::Open(opening.deref().ask(alloc)?))),
            What::Leased { key, worker, .. } => Ok(Some(Command::Lease {
                key: *key,
                worker: worker.copy()?,
            })),
            What::Reported { run, verdict, .. } => Ok(Some(Command::Report {
                run: *run,
                verdict: *verdict,
            })),
            What::Skipped { run, .. } => Ok(Some(Command::Skip { run: *run })),
            What::Cancelled { key, search } => Ok(Some(Command::Cancel {
                key: *key,
                search: *search,
            })),
            What::Ordered { key, agent, .. } => Ok(Some(Command::TakeRevert {
                key: *key,
                agent: agent.copy()?,
            })),
        }
    }

    /// Whether what the entry records is what a command asks for, the key left out.
    pub fn is_asked_by(&self, alloc: Global, command: &Command) -> Result<bool, Memory>
        ensures { IfOk result (λ same. same ≡ asks_for self.now command.now) }
    {
        match (self, command) {
            (What::Opened(opening), Command::Open(ask)) => opening.deref().is_made_by(alloc, ask),
            (What::Leased { worker, .. }, Command::Lease { worker: asked, .. }) => {
                Ok(worker == asked)
            }
            (What::Cancelled { search, .. }, Command::Cancel { search: asked, .. }) => {
                Ok(search == asked)
            }
            (What::Ordered { agent, .. }, Command::TakeRevert { agent: asked, .. }) => {
                Ok(agent == asked)
            }
            _ => Ok(false),
        }
    }
}

impl Command {
    /// The key of the command, by which it is known again. A report is told by its run, with a
    /// verdict or not, and what only shows by nothing.
    pub fn key(&self) -> Option<Key>
        ensures { result ≡ key_of self.now }
    {
        match self {
            Command::Open(ask) => Some(ask.key),
            Command::Lease { key, .. }
            | Command::Cancel { key, .. }
            | Command::TakeRevert { key, .. } => Some(*key),
            Command::Report { .. }
            | Command::Skip { .. }
            | Command::ShowSearch { .. }
            | Command::ShowFarm
            | Command::ShowOrders
            | Command::ShowRuns { .. }
            | Command::ShowSearches { .. } => None,
        }
    }

    /// Whether the command only shows something.
    pub fn is_show(&self) -> bool
        ensures { result ≡ is_show self.now }
    {
        match self {
            Command::ShowSearch { .. }
            | Command::ShowFarm
            | Command::ShowOrders
            | Command::ShowRuns { .. }
            | Command::ShowSearches { .. } => true,
            _ => false,
        }
    }
}
