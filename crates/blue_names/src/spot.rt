// Choice: docs/DECISIONS.md#places-of-32-bits
/// The place of a size that is out of its limits: a node, a wire or a chain, by its number.
#[derive(Clone, Copy)]
pub enum Spot {
    /// A node.
    Node(u32),
    /// A wire.
    Wire(u32),
    /// A chain.
    Chain(u32),
}
