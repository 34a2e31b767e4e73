// What a blueprint says. The text that it is written in, and whether it can be run, are matters of the crates above.
use crate::kind::Kind;
use elem_core::line::Line;
use elem_core::why::Decider;

/// A graph of sources, stages and sinks joined by wires, with the switches and the chains that its nodes name. Each list is in
/// the order of declaration.
#[derive(Drop)]
pub struct Blueprint {
    /// The names of its kill switches.
    pub switches: Vec<Line>,
    /// The chains that substreams run.
    pub chains: Vec<ChainDecl>,
    /// Its sources, stages and sinks. A node's number is its place here, from 0.
    pub nodes: Vec<Node>,
    /// Its wires. A wire's number is its place here, from 0.
    pub wires: Vec<WireDecl>,
}

/// A chain of linear stages under a name.
#[derive(Drop)]
pub struct ChainDecl {
    /// By which nodes name it.
    pub name: Line,
    /// Its stages, the first first.
    pub steps: Vec<Step>,
}

/// One stage of a chain.
#[derive(Drop)]
pub struct Step {
    /// What it does.
    pub kind: Kind,
    /// What it does with an element for which its function has no value.
    pub decider: Decider,
}

/// A source, a stage or a sink.
#[derive(Drop)]
pub struct Node {
    /// By which wires and reports name it.
    pub name: Line,
    /// What it does.
    pub kind: Kind,
    /// What it does with an element for which its function has no value.
    pub decider: Decider,
}

/// A wire from an output to an input, each by its node's name and its number there, from 0.
#[derive(Drop)]
pub struct WireDecl {
    /// The node whose output it is.
    pub from: Line,
    /// Which of that node's outputs.
    pub output: u32,
    /// The node whose input it is.
    pub to: Line,
    /// Which of that node's inputs.
    pub input: u32,
    /// The size of its lane, in elements, where it is an asynchronous boundary.
    pub lane: Option<u32>,
    /// Whether a failure on that lane waits behind the elements that came before it.
    pub keep: bool,
}
