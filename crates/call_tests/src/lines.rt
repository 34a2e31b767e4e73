// Lines of texts.
use elem_core::line::Line;
use std::alloc::{AllocError, Global};

/// The line of a text; a text that is no line is the empty line.
pub fn line_of(alloc: Global, text: &str) -> Result<Line, AllocError> {
    let mut bytes = Vec::new(alloc);
    if Line::can_hold(text.as_bytes()) {
        bytes.extend_from_slice(text.as_bytes())?;
    }
    Ok(Line::of(bytes))
}
