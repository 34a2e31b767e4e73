// What a node is handed that the caller made.
use graph_stage::custom::Custom;
use graph_stage::handlers::Handlers;
use plug_logic::logic::Logic;
use plug_logic::plug::Plug;

/// A stage that the caller hands in; the handlers of a custom stage are boxed where no other type is named.
#[derive(Drop)]
pub enum Guest<L: Logic, H = Box<dyn Handlers + Send>> {
    /// A plug.
    Plug(Plug<L>),
    /// A stage that calls its ports itself.
    Custom(Custom<H>),
}
