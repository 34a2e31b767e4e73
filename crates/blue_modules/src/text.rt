// What a text of the language says, before its modules are flattened. The grammar that it is written in, and the rules on its names,
// are matters of the crates above.
ghost use Rattle.std.specs.Prelude.{◌≡◌, ◌++◌, [], List, IfOk, OnOk};
ghost use Rattle.blue_modules.specs.declared.text.Entry.{Entry as Said};
ghost use Rattle.blue_modules.specs.Flatten.{flat_wire, entry_parts, replaced, part_nodes, part_wires};

use crate::parts::{Around, Parts, flat_lane, own_end, own_node};
use elem_core::line::Line;
use elem_core::why::{Decider, NoMemory};
use std::alloc::Global;
use stream_model::blueprint::WireDecl;
use stream_model::kind::Kind;

/// What a text, a module or an instance sets for the lanes and the stages in it that set nothing of their own.
#[derive(Clone, Copy)]
pub struct Attrs {
    /// The size of lanes, in elements.
    pub size: Option<u32>,
    /// What stages do with an element for which their function has no value.
    pub decider: Option<Decider>,
}

/// A port of a node or of an instance.
#[derive(Drop)]
pub enum PortMark {
    /// A node's, by its number, from 0.
    Num(u32),
    /// An instance's, by its name.
    Name(Line),
}

/// Whether a wire is an asynchronous boundary, and how many elements its lane has.
#[derive(Clone, Copy)]
pub enum LaneMark {
    /// It is none.
    Fused,
    /// It is one of the size that is set around it.
    Inherited,
    /// It is one of this size.
    Own(u32),
}

/// A source, a stage or a sink, as it is written.
#[derive(Drop)]
pub struct NodeText {
    /// By which wires and ports of its body name it.
    pub name: Line,
    /// What it does.
    pub kind: Kind,
    /// What it does with an element for which its function has no value, where that is written.
    pub decider: Option<Decider>,
}

/// An instance of a module.
#[derive(Drop)]
pub struct UseText {
    /// By which wires and ports of its body name it.
    pub name: Line,
    /// The module.
    pub of: Line,
    /// What it sets.
    pub attrs: Attrs,
}

/// A wire from an output to an input, as it is written.
pub struct WireText {
    /// The node or the instance whose output it is.
    pub from: Line,
    /// Which of its outputs.
    pub output: PortMark,
    /// The node or the instance whose input it is.
    pub to: Line,
    /// Which of its inputs.
    pub input: PortMark,
    /// Its lane.
    pub lane: LaneMark,
    /// Whether a failure on that lane waits behind the elements that came before it.
    pub keep: bool,
}

// By hand, so that a drop is one call, proved in this crate once and for all above.
impl Drop for WireText {
    fn drop(self) {
        let WireText {
            from: _,
            output: _,
            to: _,
            input: _,
            lane: _,
            keep: _,
        } = self;
    }
}

impl WireText {
    /// The wire of a text without modules. The names of its ends are not copied.
    pub(crate) fn into_wire(self, alloc: Global, around: Around) -> Result<WireDecl, NoMemory>
        ensures { (body : List Said) → IfOk result (λ w. w ≡ flat_wire [] body [] around self) }
    {
        let WireText {
            from,
            output,
            to,
            input,
            lane,
            keep,
        } = self;
        let (from, output) = own_end(alloc, from, output)?;
        let (to, input) = own_end(alloc, to, input)?;
        Ok(WireDecl {
            from,
            output,
            to,
            input,
            lane: flat_lane(around, lane),
            keep,
        })
    }
}

/// What a line of a body declares.
pub enum Entry {
    /// A source, a stage or a sink.
    Node(NodeText),
    /// An instance of a module.
    Instance(UseText),
    /// A wire.
    Wire(WireText),
}

// By hand, so that a drop is one call, proved in this crate once and for all above.
impl Drop for Entry {
    fn drop(self) {
        match self {
            Entry::Node(_) => {}
            Entry::Instance(_) => {}
            Entry::Wire(_) => {}
        }
    }
}

impl Entry {
    /// Adds the node or the wire that an entry of a text without modules declares. Nothing of it is copied.
    pub(crate) fn put_own(
        self,
        alloc: Global,
        parts: &mut Parts,
        around: Around,
    ) -> Result<(), NoMemory>
        ensures nodes { (body : List Said) → OnOk result (parts.new.nodes.items ≡ parts.old.nodes.items ++ part_nodes
            (entry_parts [] (replaced []) body [] around self)) }
        ensures wires { (body : List Said) → OnOk result (parts.new.wires.items ≡ parts.old.wires.items ++ part_wires
            (entry_parts [] (replaced []) body [] around self)) }
    {
        match self {
            Entry::Node(node) => {
                parts.nodes.push(own_node(around, node))?;
                Ok(())
            }
            Entry::Instance(_) => Ok(()),
            Entry::Wire(wire) => {
                let wire = wire.into_wire(alloc, around)?;
                parts.wires.push(wire)?;
                Ok(())
            }
        }
    }
}

/// A port of a module: a name for a port of one of its nodes or instances.
#[derive(Drop)]
pub struct PortDecl {
    /// Whether it is an output.
    pub output: bool,
    /// Its name.
    pub name: Line,
    /// The node or the instance whose port it stands for.
    pub node: Line,
    /// Which port of that.
    pub port: PortMark,
}

/// A part of a blueprint under a name, for use in many places. Its ports, and what its body declares, are each in order.
#[derive(Drop)]
pub struct Module {
    /// By which instances name it.
    pub name: Line,
    /// What it sets.
    pub attrs: Attrs,
    /// Its inputs and outputs.
    pub ports: Vec<PortDecl>,
    /// What it declares.
    pub body: Vec<Entry>,
}

/// One stage of a chain, as it is written.
#[derive(Drop)]
pub struct StepText {
    /// What it does.
    pub kind: Kind,
    /// What it does with an element for which its function has no value, where that is written.
    pub decider: Option<Decider>,
}

/// A chain of linear stages under a name, as it is written.
#[derive(Drop)]
pub struct ChainText {
    /// By which nodes name it.
    pub name: Line,
    /// Its stages, the first first.
    pub steps: Vec<StepText>,
}

/// What a text declares, each in the order of declaration.
pub struct BlueText {
    /// What its `default` line sets.
    pub attrs: Attrs,
    /// The names of its kill switches.
    pub switches: Vec<Line>,
    /// Its chains.
    pub chains: Vec<ChainText>,
    /// Its modules.
    pub modules: Vec<Module>,
    /// Its own body: what it declares outside of modules.
    pub body: Vec<Entry>,
}

// By hand, so that a drop is one call, proved in this crate once and for all above.
impl Drop for BlueText {
    fn drop(self) {
        let BlueText {
            attrs: _,
            switches: _,
            chains: _,
            modules: _,
            body: _,
        } = self;
    }
}

impl BlueText {
    /// Its switches, its chains and its own body. The modules are let go.
    pub(crate) fn into_lists(self) -> (Vec<Line>, Vec<ChainText>, Vec<Entry>)
        ensures switches { result.0 ≡ self.switches }
        ensures chains { result.1 ≡ self.chains }
        ensures body { result.2 ≡ self.body }
    {
        let BlueText {
            attrs: _,
            switches,
            chains,
            modules: _,
            body,
        } = self;
        (switches, chains, body)
    }
}
