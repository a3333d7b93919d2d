//! Whoever a connection is served for.

use shared_farm::{Beginning, Pass, TotalsReader};
use std::marker::Brand;

/// Whoever a connection is served for, as the farm knows it. `B` is what the farm began with.
#[derive(Drop)]
pub struct Caller<B: Beginning = Brand> {
    /// The pass at whose turns commands and log pages are answered.
    pub pass: Pass,
    /// The reader of the totals, which are answered without a turn.
    pub reader: TotalsReader<B>,
}
