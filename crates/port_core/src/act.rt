use elem_core::elem::Elem;
use elem_core::why::Cause;

/// What a handler wants done at a port of its stage. Inputs and outputs are numbered apart, each from 0. Rule: Akka Streams
/// 2.6 reference.
#[derive(Drop)]
pub enum Act {
    /// Pull at an input.
    Pull(u8),
    /// Give an element at an output.
    Push(u8, Elem),
    /// Complete an output.
    Complete(u8),
    /// Fail an output with a cause.
    FailOut(u8, Cause),
    /// Cancel an input.
    Cancel(u8),
}
