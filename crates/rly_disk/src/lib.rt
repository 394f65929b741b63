//! The disk model: the calls of a disk, and the images that a crash may leave at any moment. Every
//! claim about crashes rests on it.
//!
//! The contract of `trait Disk` is the model (`specs/DiskModel.antt`). `specs/Trace.antt`
//! describes several calls as one list of events; the laws here give its effects. `MemDisk` and
//! `FaultDisk` are disks for tests. Crates that use a device are generic over `Disk`.
#![tactic(auto)]

mod counts;
mod disk;
mod fault_disk;
mod laws;
mod mem;
mod record;
mod traced_disk;
mod trials;

pub use counts::Counts;
pub use disk::{Disk, DiskFault};
pub use fault_disk::{After, FaultDisk};
pub use laws::{law_counts, law_one_failure, law_range, law_settles, law_untouched};
pub use mem::{MemDisk, Torn};
pub use traced_disk::{DiskCall, TracedCall, TracedDisk};
pub use trials::{law_failed_tries, law_joined_tries, law_row, law_tried, law_tried_reads};
