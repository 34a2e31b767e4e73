// Orders.

/// What a kill switch orders. Rule: Akka Streams 2.6 reference.
#[derive(Clone, Copy)]
pub enum Order {
    /// The valves of the switch complete their outputs and cancel their inputs.
    Shutdown,
    /// The valves of the switch fail their outputs and cancel their inputs.
    Abort,
}
