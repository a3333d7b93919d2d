//! The service: a farm on a disk, served over a network by handlers in threads.
//!
//! [`serve`] opens the store on a disk, shares its farm, and starts handlers that take links from the network under one
//! lock and serve each outside of it, until so many accepts were made or one answered that no more will come. Then it
//! puts the farm's line, and gives disk and network back. What it promises is one clause, `ServeEnds` of `specs/`.
//!
//! The crate stands on `farm_http` for the serving of one connection, on `shared_farm` and `farm_store` for the farm,
//! on `link_io` for networks, and on `farm_wire` for the line. It alone starts threads. The layers above may use
//! `serve` and `Ending`.
#![tactic(auto)]

mod accepts;
mod early_reader;
mod ending;
mod gate;
mod handlers;
mod last_line;
mod link;
mod naming;
mod serving;
mod standing;

pub use ending::Ending;
pub use farm_store::OpeningFault;
pub use serving::serve;
