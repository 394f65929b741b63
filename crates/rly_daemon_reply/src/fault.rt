use thiserror::Error;

/// The stream that failed.
#[derive(Clone, Copy, Debug, PartialEq, Eq, Error)]
pub enum StreamFault {
    /// The reader failed.
    #[error("rly: input failed")]
    Input,
    /// The writer failed.
    #[error("rly: output failed")]
    Output,
}
