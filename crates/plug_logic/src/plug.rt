// A stage that a caller hands in.
use crate::logic::Logic;
use stream_model::head::PlugHead;

// Choices: docs/DECISIONS.md#above-the-heads, docs/DECISIONS.md#logic-is-a-parameter
/// A plug: what blueprints have to know of it, and its logic, which is boxed where no other type is named.
#[derive(Drop)]
pub struct Plug<L = Box<dyn Logic + Send>> {
    /// Its name and its types.
    pub head: PlugHead,
    /// What it does.
    pub logic: L,
}
