//! Disks in memory.
mod call_log;
mod calm_disk;
mod fault_plan;
mod marks;
mod mem_disk;
mod overwrite;
mod tracked;

pub use calm_disk::CalmDisk;
pub use fault_plan::DiskFail;
pub use mem_disk::MemDisk;
