/// What a look at a lane's output end finds.
#[derive(Clone, Copy)]
pub enum Found {
    /// Nothing that was not known.
    Nothing,
    /// More elements are asked for.
    Demand,
    /// The other end has cancelled.
    Cancelled,
}
