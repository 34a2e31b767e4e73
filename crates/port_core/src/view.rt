// Choice: docs/DECISIONS.md#ports-are-lists
/// What a stage knows of one of its inputs. The other end's closing counts once it was delivered to the stage. Rule: Akka
/// Streams 2.6 reference.
#[derive(Clone, Copy)]
pub enum InView {
    /// It was not pulled since the last element.
    Idle,
    /// It was pulled, and no element came since.
    Pulled,
    /// The end came.
    Finished,
    /// The stage cancelled it.
    Cancelled,
}

/// What a stage knows of one of its outputs. The other end's cancel counts once it was delivered to the stage. Rule: Akka
/// Streams 2.6 reference.
#[derive(Clone, Copy)]
pub enum OutView {
    /// The other end has not pulled.
    Unpulled,
    /// The other end pulled, and no element was pushed since.
    Available,
    /// The stage completed or failed it.
    Closed,
    /// The other end's cancel came.
    Cancelled,
}
