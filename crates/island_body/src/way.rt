// Choice: docs/DECISIONS.md#ends-act-when-told
/// Which end of a lane stands at a connection, by its place among the ends of its island.
#[derive(Clone, Copy)]
pub enum Way {
    /// None: both its stages are nodes of the blueprint.
    Inner,
    /// The input end of that place.
    In(u32),
    /// The output end of that place.
    Out(u32),
}
