use crate::want::Want;
use elem_core::elem_type::ElemType;

/// The greatest depth to which the types of elements nest.
pub const MAX_NESTING: u32 = 4;

/// What comes of a type at a stage.
#[derive(Drop)]
pub enum Typed {
    /// The stage gives elements of this type.
    Gives(ElemType),
    /// A type arrives at a function that accepts others.
    Clashes(ElemType, Want),
    /// A type would nest too deep.
    TooDeep,
}

/// A type that arrives at a wire's input and that it does not accept.
#[derive(Drop)]
pub struct Clash {
    /// The number of the wire.
    pub wire: usize,
    /// The type that arrives.
    pub left: ElemType,
    /// What is accepted.
    pub want: Want,
}
