//! Relocation: when the journal opens a segment, the live payloads of another one, the victim, go
//! into the new segment's head (checkpoint), so that the victim can be overwritten later.
//!
//! `collect_victim` reads these payloads into a copy of the spool (`specs/Collection.antt`), from
//! which `rly_segment::open_segment` writes the head. Then `relocate_all` gives each its new device
//! address in memory (`specs/Relocation.antt`); `relocate_read` does the same for a head that was
//! read. `law_relocated`: afterwards the victim holds no live payload. Callers: `rly_journal` and
//! `rly_journal_index`.
#![tactic(auto)]

mod collection;
mod collection_laws;
mod fault;
mod lines;
mod payloads;
mod read_laws;
mod read_payloads;
mod relocated_payloads;
mod relocation_laws;

pub use crate::collection::collect_victim;
pub use crate::collection_laws::law_but_for_bytes;
pub use crate::fault::CollectionFault;
pub use crate::read_laws::law_relocated_live;
pub use crate::read_payloads::relocate_read;
pub use crate::relocated_payloads::relocate_all;
pub use crate::relocation_laws::{law_may_relocate, law_relocated};
