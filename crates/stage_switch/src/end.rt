// What a stage has of its switch.
use crate::seat::SwitchSeat;
use crate::switch::Switch;
use std::sync::Arc;

/// What a trip or a valve has of its switch.
#[derive(Drop)]
pub struct SwitchEnd {
    /// The switch, which others share.
    pub switch: Arc<Switch>,
    /// The seat at it, of this trip or valve alone.
    pub seat: SwitchSeat,
}
