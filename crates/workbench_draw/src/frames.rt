// The frames of a drawing: one for each instance of a module, round the nodes of its body.
use crate::look::{AREA, put_quoted};
use elem_core::why::NoMemory;
use std::alloc::Global;
use stream_model::blueprint::Node;

/// How many bytes two names have in common, as far as a point: those of the instances that both are in.
fn shared(old: &[u8], new: &[u8]) -> usize {
    let mut found: usize = 0;
    for (i, byte) in old.iter().enumerate() {
        match new.get(i) {
            Some(other) if *other == *byte => {}
            _ => return found,
        }
        if *byte == b'.' {
            found = i.saturating_add(1);
        }
    }
    found
}

/// The first bytes of a name, so many.
fn first_of(alloc: Global, name: &[u8], count: usize) -> Result<Vec<u8>, NoMemory> {
    let mut out = Vec::new(alloc);
    for (i, byte) in name.iter().enumerate() {
        if i < count {
            out.push(*byte)?;
        }
    }
    Ok(out)
}

/// The line that a frame begins with: the name of its instance with those of the instances around it.
fn frame_line(alloc: Global, instance: &[u8]) -> Result<Vec<u8>, NoMemory> {
    let mut cluster = Vec::new(alloc);
    cluster.extend_from_slice(b"cluster_")?;
    cluster.extend_from_slice(instance)?;
    let mut out = Vec::new(alloc);
    out.extend_from_slice(b"  subgraph ")?;
    put_quoted(&mut out, &cluster)?;
    out.extend_from_slice(b" { label=")?;
    put_quoted(&mut out, instance)?;
    out.extend_from_slice(b"; ")?;
    out.extend_from_slice(AREA)?;
    out.push(b'\n')?;
    Ok(out)
}

/// Adds the end of each frame of a node's name whose point is not among its first bytes, so many.
fn close_frames(
    alloc: Global,
    lines: &mut Vec<Vec<u8>>,
    name: &[u8],
    same: usize,
) -> Result<(), NoMemory> {
    for (i, byte) in name.iter().enumerate() {
        if *byte == b'.' && i >= same {
            lines.push(Vec::from_slice(alloc, b"  }\n")?)?;
        }
    }
    Ok(())
}

/// Adds the beginning of each such frame, from without.
fn open_frames(
    alloc: Global,
    lines: &mut Vec<Vec<u8>>,
    name: &[u8],
    same: usize,
) -> Result<(), NoMemory> {
    for (i, byte) in name.iter().enumerate() {
        if *byte == b'.' && i >= same {
            let instance = first_of(alloc, name, i)?;
            lines.push(frame_line(alloc, &instance)?)?;
        }
    }
    Ok(())
}

/// Adds the name of a node, where it is in an instance.
fn add_member(alloc: Global, lines: &mut Vec<Vec<u8>>, name: &[u8]) -> Result<(), NoMemory> {
    if !name.contains(&b'.') {
        return Ok(());
    }
    let mut out = Vec::new(alloc);
    out.extend_from_slice(b"  ")?;
    put_quoted(&mut out, name)?;
    out.extend_from_slice(b";\n")?;
    lines.push(out)?;
    Ok(())
}

// Choice: docs/DECISIONS.md#frames-by-names
/// A frame for each instance that a node is in, within those of the instances around it. The nodes of an instance stand together, and
/// the name of each begins with that of its instance and a point.
pub(crate) fn frame_lines(alloc: Global, nodes: &[Node]) -> Result<Vec<Vec<u8>>, NoMemory> {
    let mut lines = Vec::new(alloc);
    let mut before: &[u8] = &[];
    for node in nodes {
        let name = node.name.bytes();
        let same = shared(before, name);
        close_frames(alloc, &mut lines, before, same)?;
        open_frames(alloc, &mut lines, name, same)?;
        add_member(alloc, &mut lines, name)?;
        before = name;
    }
    close_frames(alloc, &mut lines, before, 0)?;
    Ok(lines)
}
