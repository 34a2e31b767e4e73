// A stage that a caller hands in.
use crate::handlers::Handlers;
use stream_model::head::CustomHead;

/// A custom stage: its head, and its handlers, which are boxed where no other type is named.
#[derive(Drop)]
pub struct Custom<H = Box<dyn Handlers + Send>> {
    /// Its name and the types of its ports.
    pub head: CustomHead,
    /// What it does.
    pub stage: H,
}
