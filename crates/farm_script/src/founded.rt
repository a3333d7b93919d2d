//! A script over a farm in memory.

ghost use Rattle.std.specs.Prelude.{◌≢◌};
ghost use Rattle.link_io.specs.Streams.{streams};
ghost use Rattle.farm_script.specs.FoundedRun.{FoundedRunCompletes, FoundedRunEnds};

use crate::run_end::RunEnd;
use crate::script_run::run_script;
use farm_core::Farm;
use farm_entry::Settings;
use farm_types::Moment;
use link_io::{Sink, Source};
use std::alloc::Global;

/// Runs the script that an input holds over a farm in memory, which is founded for it with these settings at this
/// moment. The farm is gone afterwards, so of its history the replies alone tell. There is no store that could fail.
pub fn run_founded<S: Source, K: Sink>(
    alloc: Global,
    settings: Settings,
    at: Moment,
    input: &mut S,
    output: &mut K,
) -> RunEnd
    ensures ends { let before = streams S.Source K.Sink input.old output.old in
        let after = streams S.Source K.Sink input.new output.new in
        FoundedRunEnds settings at result before after }
    ensures completes { let before = streams S.Source K.Sink input.old output.old in
        let after = streams S.Source K.Sink input.new output.new in
        FoundedRunCompletes result before after }
    ensures no_store { result ≢ RunEnd.StoreFault }
{
    let mut farm = match Farm::found(alloc, settings, at) {
        Ok(farm) => farm,
        Err(_) => return RunEnd::Memory,
    };
    run_script(alloc, &mut farm, input, output)
}
