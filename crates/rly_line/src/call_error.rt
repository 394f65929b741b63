use rly_machine::Ask;

/// The error of a call without an answer.
#[derive(Debug, Drop)]
pub enum CallError {
    /// The call was not submitted, and is handed back.
    Closed(Ask),
    /// The call was submitted and no answer came: it may or may not take effect.
    Lost,
}

/// The error of a batch without answers.
#[derive(Debug, Drop)]
pub enum BatchError {
    /// None of its asks was submitted.
    Closed,
    /// They were submitted and no answers came: a prefix of them, maybe empty, takes effect.
    Lost,
}
