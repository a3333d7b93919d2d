//! What an entry holds.

ghost use Rattle.std.specs.Prelude.{◌≡◌, is_some, IfOk};
ghost use Rattle.std.specs.Option.{option_copied};
ghost use Rattle.farm_entry.specs.History.{cancelled_in, is_closing, key_in, lease_in, opening_in, order_in, ordered_in, report_in, settings_in, skip_in, told_in};

use crate::{LeasedRun, Opening, OrderLine, ReportedRun, Settings, SkippedRun, What};
use farm_rules::OrderedCommit;
use farm_types::{Key, Memory};
use std::ops::Deref;

impl What {
    /// The settings that the entry founds the farm with.
    pub fn settings(&self) -> Option<Settings>
        ensures { result ≡ settings_in self.now }
    {
        match self {
            What::Founded { settings } => Some(*settings),
            _ => None,
        }
    }

    /// The opening that the entry records.
    pub fn opening(&self) -> Option<&Opening>
        ensures { option_copied result ≡ opening_in self.now }
    {
        match self {
            What::Opened(opening) => Some(opening.deref()),
            _ => None,
        }
    }

    /// The run that the entry hands out.
    pub fn lease(&self) -> Option<LeasedRun>
        ensures { result ≡ lease_in self.now }
    {
        match self {
            What::Leased {
                run,
                search,
                stage,
                position,
                deadline,
                ..
            } => Some(LeasedRun {
                run: *run,
                search: *search,
                stage: *stage,
                position: *position,
                deadline: *deadline,
            }),
            _ => None,
        }
    }

    /// The report that the entry records.
    pub fn report(&self) -> Option<ReportedRun>
        ensures { result ≡ report_in self.now }
    {
        match self {
            What::Reported { run, verdict, fate } => Some(ReportedRun {
                run: *run,
                verdict: *verdict,
                fate: *fate,
            }),
            _ => None,
        }
    }

    /// The report that the entry records of a run whose tree can't be tested.
    pub fn skip(&self) -> Option<SkippedRun>
        ensures { result ≡ skip_in self.now }
    {
        match self {
            What::Skipped { run, fate } => Some(SkippedRun {
                run: *run,
                fate: *fate,
            }),
            _ => None,
        }
    }

    /// The run that the entry reports, with a verdict or not.
    pub fn told(&self) -> Option<u32>
        ensures { result ≡ told_in self.now }
    {
        match self {
            What::Reported { run, .. } | What::Skipped { run, .. } => Some(*run),
            _ => None,
        }
    }

    /// The number of the search that the entry cancels.
    pub fn cancelled(&self) -> Option<u32>
        ensures { result ≡ cancelled_in self.now }
    {
        match self {
            What::Cancelled { search, .. } => Some(*search),
            _ => None,
        }
    }

    /// The order that the entry records, as it is shown.
    pub fn order(&self) -> Result<Option<OrderLine>, Memory>
        ensures { IfOk result (λ line. line ≡ order_in self.now) }
    {
        match self {
            What::Ordered {
                agent,
                order,
                commit,
                search,
                day,
                ..
            } => Ok(Some(OrderLine {
                order: *order,
                agent: agent.copy()?,
                commit: *commit,
                search: *search,
                day: *day,
            })),
            _ => Ok(None),
        }
    }

    /// The order that the entry stands for, of this farm or of one before it: its commit and its day.
    pub fn ordered(&self) -> Option<OrderedCommit>
        ensures { result ≡ ordered_in self.now }
    {
        match self {
            What::Ordered { commit, day, .. } | What::Carried { commit, day } => {
                Some(OrderedCommit {
                    commit: *commit,
                    day: *day,
                })
            }
            _ => None,
        }
    }

    /// The key of the request that made the entry.
    pub fn key(&self) -> Option<Key>
        ensures { result ≡ key_in self.now }
    {
        match self {
            What::Founded { .. }
            | What::Reported { .. }
            | What::Skipped { .. }
            | What::Carried { .. }
            | What::Closed => None,
            What::Opened(opening) => Some(opening.deref().key),
            What::Leased { key, .. } | What::Cancelled { key, .. } | What::Ordered { key, .. } => {
                Some(*key)
            }
        }
    }

    /// Whether the entry records an opening.
    pub fn is_opening(&self) -> bool
        ensures { result ≡ is_some (opening_in self.now) }
    {
        match self {
            What::Opened(_) => true,
            _ => false,
        }
    }

    /// Whether the entry closes the farm.
    pub fn is_closing(&self) -> bool
        ensures { result ≡ is_closing self.now }
    {
        match self {
            What::Closed => true,
            _ => false,
        }
    }

    /// Whether the entry records an order.
    pub fn is_order(&self) -> bool
        ensures { result ≡ is_some (order_in self.now) }
    {
        match self {
            What::Ordered { .. } => true,
            _ => false,
        }
    }
}
