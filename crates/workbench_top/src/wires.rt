// The line of a wire, in words: how many elements passed, and which node waits for which.
use crate::scene::Scene;
use blue_words::places::count_place;
use blue_words::words::is_word;
use elem_core::why::NoMemory;
use stream_model::blueprint::WireDecl;
use workbench_draw::marks::WireMark;
use workbench_draw::message::put_number;

/// Appends a wire as `stage.output -> stage.input`.
pub(crate) fn put_wire(out: &mut Vec<u8>, wire: &WireDecl) -> Result<(), NoMemory> {
    out.extend_from_slice(wire.from.bytes())?;
    out.push(b'.')?;
    put_number(out, u64::from(wire.output))?;
    out.extend_from_slice(b" -> ")?;
    out.extend_from_slice(wire.to.bytes())?;
    out.push(b'.')?;
    put_number(out, u64::from(wire.input))
}

/// Appends who waits for whom at a wire that is not closed.
fn put_waits(out: &mut Vec<u8>, wire: &WireDecl, asked: bool) -> Result<(), NoMemory> {
    if asked {
        out.extend_from_slice(wire.to.bytes())?;
        out.extend_from_slice(b" waits for an element of ")?;
        out.extend_from_slice(wire.from.bytes())
    } else {
        out.extend_from_slice(wire.from.bytes())?;
        out.extend_from_slice(b" waits until ")?;
        out.extend_from_slice(wire.to.bytes())?;
        out.extend_from_slice(b" asks for an element")
    }
}

/// Appends what is said of a wire.
fn put_state(out: &mut Vec<u8>, wire: &WireDecl, mark: WireMark) -> Result<(), NoMemory> {
    put_wire(out, wire)?;
    out.extend_from_slice(b": ")?;
    put_number(out, mark.sent)?;
    out.extend_from_slice(b" passed, and ")?;
    if mark.shut {
        out.extend_from_slice(b"it is closed")?;
    } else {
        put_waits(out, wire, mark.asked)?;
    }
    out.extend_from_slice(b".\n")
}

/// Whether the word is the first of two, or the second; None where it is neither.
fn either(word: &[u8], first: &[u8], second: &[u8]) -> Option<bool> {
    if is_word(word, first) {
        Some(true)
    } else if is_word(word, second) {
        Some(false)
    } else {
        None
    }
}

/// The wire of whose number the words of a wire's line are, behind its first word, and what they say of it; None where they are no such
/// line.
pub(crate) fn read_wire(words: &[&[u8]]) -> Option<(usize, WireMark)> {
    let [number, _, sent, asked, shut] = words else {
        return None;
    };
    let (Ok(number), Ok(sent)) = (count_place(number), count_place(sent)) else {
        return None;
    };
    let mark = WireMark {
        sent,
        asked: either(asked, b"asked", b"unasked")?,
        shut: either(shut, b"shut", b"live")?,
    };
    Some((number as usize, mark))
}

/// Appends what the words of a wire's line say, behind its first word, and says whether they are such a line.
pub(crate) fn put_wire_line(
    out: &mut Vec<u8>,
    scene: Scene<'_>,
    words: &[&[u8]],
) -> Result<bool, NoMemory> {
    let Some((number, mark)) = read_wire(words) else {
        return Ok(false);
    };
    match scene.wire(number) {
        Some(wire) => {
            put_state(out, wire, mark)?;
            Ok(true)
        }
        None => Ok(false),
    }
}
