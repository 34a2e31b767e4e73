//! Modules of a text: the rules on their names, ports and size, and the blueprint that is left when each instance is replaced by its module's body.
//!
//! - `text`, `limit`: What texts of the language say, as values, and the limits of modules, uses and ports.
//! - `copies`: Equal kinds, and which kinds may have a decider.
//! - `entries`: A body with a table of its names.
//! - `counts`: How many nodes and wires each module comes to, before anything is built.
//! - `scopes`, `names`, `places`, `ports`, `fault`, `rules`: The rules: the first that a text breaks, at its least place.
//! - `parts`, `chains`, `flatten`: The blueprint of a text that breaks none.
#![tactic(auto)]

pub mod chains;
pub mod copies;
pub mod counts;
pub mod entries;
pub mod fault;
pub mod flatten;
pub mod limit;
pub mod names;
pub mod parts;
pub mod places;
pub mod ports;
pub mod rules;
pub mod scopes;
pub mod text;
pub mod worked;
