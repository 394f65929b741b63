//! Why a network file is refused.

use std::alloc::{AllocError, AllocFailed, Global};

/// Why a network file, or its ids, are refused.
#[derive(Drop)]
pub enum NetworkFault {
    /// Out of memory.
    Memory,
    /// What was found: lines, each with its place and what is wrong there, and a newline.
    Found(String),
}

impl From<AllocError> for NetworkFault {
    fn from(_refused: AllocError) -> NetworkFault {
        NetworkFault::Memory
    }
}

impl<T: Drop> From<AllocFailed<T>> for NetworkFault {
    fn from(_refused: AllocFailed<T>) -> NetworkFault {
        NetworkFault::Memory
    }
}

/// A fault at a place.
pub(crate) fn fault_at(alloc: Global, place: &str, text: &str) -> NetworkFault {
    match format!(in alloc; "{place}: {text}\n") {
        Ok(line) => NetworkFault::Found(line),
        Err(_) => NetworkFault::Memory,
    }
}

/// A fault at a key of a table.
pub(crate) fn fault_of_key(alloc: Global, place: &str, key: &str, text: &str) -> NetworkFault {
    match format!(in alloc; "{place}.{key}: {text}\n") {
        Ok(line) => NetworkFault::Found(line),
        Err(_) => NetworkFault::Memory,
    }
}
