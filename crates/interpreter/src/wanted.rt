// What the boundary stage where a lane comes in answers.

/// What the stage at which a lane comes in was asked.
#[derive(Clone, Copy)]
pub enum Wanted {
    /// Nothing that was not answered.
    Quiet,
    /// An element.
    Asked,
    /// It was cancelled.
    Cancelled,
}
