// The blueprint of which a report tells, with its text.
use blue_modules::counts::Counted;
use blue_modules::text::BlueText;
use elem_core::why::NoMemory;
use stream_model::blueprint::{Blueprint, Node, WireDecl};
use workbench_draw::message::{declared_at, put_source_line};
use workbench_draw::place::{FaultPlace, Sort};
use workbench_draw::source::line_of;

/// A blueprint and its text, with what that says and its modules, the latest first.
#[derive(Clone, Copy)]
pub(crate) struct Scene<'a> {
    pub(crate) text: &'a [u8],
    pub(crate) said: &'a BlueText,
    pub(crate) book: &'a [Counted<'a>],
    pub(crate) blueprint: &'a Blueprint,
}

/// Appends the line of the text in which a part is declared, in parentheses.
pub(crate) fn put_line(
    out: &mut Vec<u8>,
    scene: Scene<'_>,
    place: FaultPlace,
) -> Result<(), NoMemory> {
    let Some(declared) = declared_at(scene.book, scene.said, place) else {
        return Ok(());
    };
    if let Some(line) = line_of(scene.text, declared) {
        out.extend_from_slice(b" (")?;
        put_source_line(out, &line)?;
        out.push(b')')?;
    }
    Ok(())
}

impl<'a> Scene<'a> {
    /// The number of the node of that name.
    pub(crate) fn number_of(&self, name: &[u8]) -> Option<usize> {
        for i in 0..self.blueprint.nodes.len() {
            if self.blueprint.nodes[i].name.bytes() == name {
                return Some(i);
            }
        }
        None
    }

    /// The node of that number.
    pub(crate) fn node(&self, number: usize) -> Option<&'a Node> {
        self.blueprint.nodes.get(number)
    }

    /// The wire of that number.
    pub(crate) fn wire(&self, number: usize) -> Option<&'a WireDecl> {
        self.blueprint.wires.get(number)
    }
}

/// Appends the name of a node, and its line; says whether there is such a node.
pub(crate) fn put_node(
    out: &mut Vec<u8>,
    scene: Scene<'_>,
    number: usize,
) -> Result<bool, NoMemory> {
    match scene.node(number) {
        Some(node) => {
            out.extend_from_slice(node.name.bytes())?;
            put_line(out, scene, FaultPlace::of(Sort::Node, number))?;
            Ok(true)
        }
        None => Ok(false),
    }
}
