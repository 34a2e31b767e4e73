use elem_core::elem_type::ElemType;

/// The types that an input or a function accepts, where it does not accept all.
#[derive(Drop)]
pub enum Want {
    /// This type.
    Is(ElemType),
    /// Any list.
    AnySeq,
    /// Any pair.
    AnyPair,
}
