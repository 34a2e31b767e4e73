use elem_core::why::Cause;

/// How the input of a stage stands that still owes outputs.
#[derive(Clone, Copy)]
pub enum StateEnd {
    /// It has not ended.
    Lasting,
    /// It has ended.
    Ended,
    /// It has failed.
    Failed(Cause),
}
