//! Sources, sinks, links, a network and a clock in memory, for tests and for runs that touch nothing outside. They tell
//! their bytes, what was done and their moment; all but the clock fail at the calls that they are told to.

mod fault_plan;
mod mem_clock;
mod mem_input;
mod mem_link;
mod mem_network;
mod mem_sink;
mod mem_source;
mod pieces;

pub use fault_plan::FaultPlan;
pub use mem_clock::MemClock;
pub use mem_link::MemLink;
pub use mem_network::MemNetwork;
pub use mem_sink::MemSink;
pub use mem_source::MemSource;
