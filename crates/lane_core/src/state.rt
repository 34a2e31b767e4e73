/// What an input boundary does with what it takes off its lane.
#[derive(Clone, Copy)]
pub enum State {
    /// It hands it on.
    Flowing,
    /// It handed on an end.
    Closed,
    /// It cancelled its lane, and drops what comes.
    Cancelled,
}
