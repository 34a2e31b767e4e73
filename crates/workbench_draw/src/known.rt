// What a drawing shows beside the blueprint itself.
use crate::marks::RunMarks;
use crate::place::{FaultPlace, Sort};
use elem_core::elem_type::ElemType;

/// A place that is at fault, and what is said of it.
#[derive(Clone, Copy)]
pub(crate) struct Blamed<'a> {
    pub(crate) place: FaultPlace,
    pub(crate) fault: &'a [u8],
}

/// What is known of a blueprint that is drawn.
#[derive(Clone, Copy)]
pub(crate) struct Known<'t, 'f, 'm> {
    /// The type on each wire, as far as they are known.
    pub(crate) types: &'t [Option<ElemType>],
    /// What is at fault.
    pub(crate) blamed: Option<Blamed<'f>>,
    /// What a report says of its run.
    pub(crate) marks: Option<&'m RunMarks>,
}

impl<'t, 'f, 'm> Known<'t, 'f, 'm> {
    /// What is said of the declaration of that sort and number, where it is at fault.
    pub(crate) fn blame_at(&self, sort: Sort, number: usize) -> Option<&'f [u8]> {
        match self.blamed {
            Some(b) if b.place == FaultPlace::of(sort, number) => Some(b.fault),
            _ => None,
        }
    }

    /// The type on the wire of that number, where it is known.
    pub(crate) fn type_on(&self, wire: usize) -> Option<&'t ElemType> {
        match self.types.get(wire) {
            Some(t) => t.as_ref(),
            None => None,
        }
    }
}
