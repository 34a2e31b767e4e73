// The limits of blueprints. Each is the greatest that is allowed.

use elem_core::count::MOST_COUNT;

/// Bytes of a blueprint's text.
pub const MAX_TEXT: usize = 1_048_576;

/// Bytes of one line of it, without its LF.
pub const MAX_TEXT_LINE: usize = 1024;

/// Sources, stages and sinks together.
pub const MAX_NODES: usize = 1024;

/// Wires.
pub const MAX_WIRES: usize = 2048;

/// Chains.
pub const MAX_CHAINS: usize = 256;

/// Steps of one chain.
pub const MAX_STEPS: usize = 32;

/// Switches.
pub const MAX_SWITCHES: usize = 64;

/// The size of a lane, in elements, a power of two.
pub const MAX_LANE: u32 = 1024;

/// The size of a lane that names none.
pub const DEFAULT_LANE: u32 = 16;

/// The size of a buffer or of a group, in elements.
pub const MAX_HELD: u32 = 4096;

/// The segment of an interleave and the count of a trip, in elements.
pub const MAX_COUNT: u32 = MOST_COUNT;

/// Keys of a group_by.
pub const MAX_KEYS: u32 = 1024;
