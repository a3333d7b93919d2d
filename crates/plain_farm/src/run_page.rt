//! What is shown of the runs of a search.

ghost use Rattle.std.specs.Prelude.{◌≡◌, IfOk};
ghost use Rattle.farm_entry.specs.RunPages.{run_line, run_lines, runs_page};

use common_types::ItemList;
use farm_entry::{Entry, Opening, RunLine, RunPage, What};
use farm_types::Memory;
use plain_history::{lines_from, push_some, report_of};
use std::alloc::Global;

/// The run that an entry hands out, where it is of a search.
fn run_line(history: &[Entry], opening: &Opening, entry: &Entry) -> Result<Option<RunLine>, Memory>
    ensures { IfOk result (λ line. line ≡ run_line history.now opening.now entry.now.at entry.now.what) }
{
    match &entry.what {
        What::Leased {
            worker,
            run,
            search,
            stage,
            position,
            deadline,
            ..
        } if *search == opening.search => Ok(Some(RunLine {
            run: *run,
            stage: *stage,
            position: *position,
            commit: opening.commit(*position),
            worker: worker.copy()?,
            leased: entry.at,
            deadline: *deadline,
            report: report_of(history, *run),
        })),
        _ => Ok(None),
    }
}

/// The runs of a search, in the order in which they were handed out.
fn run_lines(alloc: Global, history: &[Entry], opening: &Opening) -> Result<Vec<RunLine>, Memory>
    ensures { IfOk result (λ lines. lines.items ≡ run_lines history.now opening.now) }
{
    let mut lines = Vec::new(alloc);
    for entry in history {
        push_some(&mut lines, run_line(history, opening, entry)?)?;
    }
    Ok(lines)
}

/// What is shown of the runs of a search from one on, the first being run 1 of it.
pub fn runs_page(
    alloc: Global,
    history: &[Entry],
    from: u32,
    opening: &Opening,
) -> Result<RunPage, Memory>
    ensures { IfOk result (λ page. page ≡ runs_page history.now from opening.now) }
{
    let lines = run_lines(alloc, history, opening)?;
    Ok(RunPage {
        search: opening.search,
        from,
        runs: ItemList::of(lines_from(lines, from)?),
    })
}
