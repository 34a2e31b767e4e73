// How a drawing looks: the form and the colours of each role, and text in its labels.
use elem_core::why::NoMemory;
use stream_model::kind::Kind;

/// What a node is in the graph. Each role has a form of its own, so that a drawing without colours tells it too.
#[derive(Clone, Copy)]
pub(crate) enum Role {
    /// A source.
    Source,
    /// A sink with a file.
    Sink,
    /// A sink that keeps nothing.
    Nothing,
    /// One element in, and at most one out at once.
    Line,
    /// Several inputs or outputs.
    Fan,
    /// Several producers or consumers, each by a lane.
    Hub,
    /// It holds elements, or a value of them.
    Holding,
    /// It runs substreams.
    Substreams,
    /// It orders a switch, or obeys one.
    Switch,
    /// A stage that the caller hands in.
    Guest,
}

/// The role of a kind.
pub(crate) fn role_of(kind: &Kind) -> Role {
    match kind {
        Kind::Lines(_) | Kind::Range(_, _) | Kind::Empty(_) | Kind::Failed(_) => Role::Source,
        Kind::ToLines(_) | Kind::Head(_) | Kind::Last(_) => Role::Sink,
        Kind::Ignore => Role::Nothing,
        Kind::MergeHub(_, _) | Kind::BroadcastHub(_, _) => Role::Hub,
        Kind::GroupBy(_, _, _) | Kind::SplitWhen(_, _, _) | Kind::SplitAfter(_, _, _) => {
            Role::Substreams
        }
        Kind::Valve(_) | Kind::TripShutdown(_, _) | Kind::TripAbort(_, _) => Role::Switch,
        Kind::Plug(_) | Kind::Custom(_) => Role::Guest,
        _ => inner_role(kind),
    }
}

/// The role of a stage that the language has itself.
fn inner_role(kind: &Kind) -> Role {
    match kind {
        Kind::Merge(_)
        | Kind::Concat(_)
        | Kind::Interleave(_, _)
        | Kind::MergeSorted
        | Kind::Zip
        | Kind::Broadcast(_)
        | Kind::Balance(_)
        | Kind::Partition(_, _)
        | Kind::Unzip => Role::Fan,
        Kind::Grouped(_)
        | Kind::Fold(_)
        | Kind::Scan(_)
        | Kind::Reduce(_)
        | Kind::Buffer(_, _)
        | Kind::RecoverNum(_)
        | Kind::RecoverText(_) => Role::Holding,
        _ => Role::Line,
    }
}

/// The form of a role. That of a line is the usual one.
pub(crate) fn form_of(role: Role) -> &'static [u8] {
    match role {
        Role::Source => b"shape=cds, style=filled, margin=\"0.12,0.1\", ",
        Role::Sink => b"shape=note, style=filled, ",
        Role::Nothing => b"shape=point, width=0.14, ",
        Role::Line => b"",
        Role::Fan => b"style=filled, ",
        Role::Hub => b"style=filled, peripheries=2, ",
        Role::Holding => b"shape=cylinder, style=filled, margin=\"0.12,0.1\", ",
        Role::Substreams => b"shape=box3d, style=filled, margin=\"0.2,0.15\", ",
        Role::Switch => b"shape=octagon, style=filled, ",
        Role::Guest => b"shape=tab, style=filled, ",
    }
}

/// The colours of a role. Those of a line are the usual ones.
pub(crate) fn colours_of(role: Role) -> &'static [u8] {
    match role {
        Role::Source => b"fillcolor=\"#e3f4e6\", color=\"#2a7d3f\", ",
        Role::Sink => b"fillcolor=\"#fdeede\", color=\"#b2610b\", ",
        Role::Nothing => b"fillcolor=\"#b2610b\", color=\"#b2610b\", ",
        Role::Line => b"",
        Role::Fan | Role::Hub => b"fillcolor=\"#efe6fb\", color=\"#6b3fb0\", ",
        Role::Holding => b"fillcolor=\"#e0f3f5\", color=\"#14757f\", ",
        Role::Substreams => b"fillcolor=\"#e6ecfb\", color=\"#2f55b5\", ",
        Role::Switch => b"fillcolor=\"#fde4e4\", color=\"#b3261e\", ",
        Role::Guest => b"fillcolor=\"#f0f0f0\", color=\"#555555\", ",
    }
}

/// The colours of a node that is at fault, with a thick edge.
pub(crate) const NODE_FAULT: &[u8] = b"fillcolor=\"#fde4e4\", color=\"#b3261e\", penwidth=3, ";

/// How the area of an island, or the frame of an instance, looks.
pub(crate) const AREA: &[u8] =
    b"labeljust=l; style=\"rounded,filled\"; fillcolor=\"#f6f8fb\"; color=\"#8794a6\"; margin=12;";

/// Appends a byte as it stands in a label with marks: those that begin or end a mark, an entity or a text by their names, and `\` twice,
/// since `dot` looks for escapes there too.
fn put_byte(out: &mut Vec<u8>, byte: u8) -> Result<(), NoMemory> {
    match byte {
        b'<' => out.extend_from_slice(b"&lt;"),
        b'>' => out.extend_from_slice(b"&gt;"),
        b'&' => out.extend_from_slice(b"&amp;"),
        b'"' => out.extend_from_slice(b"&quot;"),
        b'\\' => out.extend_from_slice(b"\\\\"),
        _ => out.extend_from_slice(&[byte]),
    }
}

/// Appends a text as it stands in a label with marks.
pub(crate) fn put_text(out: &mut Vec<u8>, bytes: &[u8]) -> Result<(), NoMemory> {
    for byte in bytes {
        put_byte(out, *byte)?;
    }
    Ok(())
}

/// Appends bytes as they stand in a quoted text: `"` and `\` behind a `\`.
fn put_escaped(out: &mut Vec<u8>, bytes: &[u8]) -> Result<(), NoMemory> {
    for byte in bytes {
        if matches!(*byte, b'"' | b'\\') {
            out.push(b'\\')?;
        }
        out.push(*byte)?;
    }
    Ok(())
}

/// Appends a name in quotes.
pub(crate) fn put_quoted(out: &mut Vec<u8>, name: &[u8]) -> Result<(), NoMemory> {
    out.push(b'"')?;
    put_escaped(out, name)?;
    out.push(b'"')?;
    Ok(())
}

/// Appends a text in bold.
pub(crate) fn put_bold(out: &mut Vec<u8>, text: &[u8]) -> Result<(), NoMemory> {
    out.extend_from_slice(b"<b>")?;
    put_text(out, text)?;
    out.extend_from_slice(b"</b>")
}

/// Appends what is said of a fault, in red.
pub(crate) fn put_fault(out: &mut Vec<u8>, fault: &[u8]) -> Result<(), NoMemory> {
    out.extend_from_slice(b"<font point-size=\"10\" color=\"#b3261e\">")?;
    put_text(out, fault)?;
    out.extend_from_slice(b"</font>")
}
