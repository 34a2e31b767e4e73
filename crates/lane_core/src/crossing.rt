// The lanes between bodies.

// Choice: docs/DECISIONS.md#crossings
/// A lane: the body of its output end and the end's place there, and the body of its input end and that end's place.
#[derive(Clone, Copy)]
pub struct Crossing {
    /// The body that sends.
    pub from: u32,
    /// The output end's place among those of that body.
    pub out: u32,
    /// The body that takes.
    pub to: u32,
    /// The input end's place among those of that body.
    pub inp: u32,
}
