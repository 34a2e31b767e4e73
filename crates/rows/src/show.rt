// How a case that went wrong is told.
use crate::attempt::Came;
use case_files::case::Case;
use case_files::text::put_number;
use std::alloc::AllocError;
use stream_io::named_file::NamedFile;

/// Appends what a case wanted, and what came.
pub fn put_miss(out: &mut Vec<u8>, case: &Case, came: &Came) -> Result<(), AllocError> {
    for wanted in &case.wanted {
        put_ending(
            out,
            b"  wanted: code ",
            wanted.code,
            &wanted.said,
            &wanted.files,
        )?;
        for (wire, count) in &wanted.most {
            out.extend_from_slice(b"    wire ")?;
            put_number(out, *wire)?;
            out.extend_from_slice(b" sent at most ")?;
            put_number(out, *count)?;
            out.push(b'\n')?;
        }
    }
    out.extend_from_slice(b"  at step ")?;
    put_number(out, came.step)?;
    put_ending(out, b" came: code ", came.code, &came.said, &came.files)
}

fn put_ending(
    out: &mut Vec<u8>,
    title: &[u8],
    code: u32,
    said: &[u8],
    files: &[NamedFile],
) -> Result<(), AllocError> {
    out.extend_from_slice(title)?;
    put_number(out, code)?;
    put_bytes(out, said)?;
    for file in files {
        out.extend_from_slice(b"    file ")?;
        out.extend_from_slice(file.name.bytes())?;
        put_bytes(out, &file.bytes)?;
    }
    Ok(())
}

/// Appends bytes as the lines of a part: with `|` before each line, and escapes.
fn put_bytes(out: &mut Vec<u8>, bytes: &[u8]) -> Result<(), AllocError> {
    let mut is_begun = false;
    for byte in bytes {
        if !is_begun {
            out.extend_from_slice(b"\n    |")?;
        }
        is_begun = *byte != b'\n';
        match *byte {
            b'\n' => {}
            b'\\' => out.extend_from_slice(b"\\\\")?,
            b' '..=b'~' => out.push(*byte)?,
            other => put_escaped(out, other)?,
        }
    }
    out.extend_from_slice(if is_begun { b"\\\n" } else { b"\n" })
}

/// Appends a byte as an escape.
fn put_escaped(out: &mut Vec<u8>, byte: u8) -> Result<(), AllocError> {
    out.extend_from_slice(b"\\x")?;
    out.push(digit(byte / 16))?;
    out.push(digit(byte % 16))?;
    Ok(())
}

fn digit(value: u8) -> u8 {
    if value < 10 {
        b'0'.saturating_add(value)
    } else {
        b'W'.saturating_add(value)
    }
}
