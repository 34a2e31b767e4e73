// What an island is made of, and the wiring of its ports.
ghost use Rattle.std.specs.Prelude.{◌≡◌, ◌<◌, ◌≤◌, ◌^◌, [], IfOk, length, map, vec_len, vec_capacity};
ghost use Rattle.fused_net.specs.Net.{port_at};
ghost use Rattle.fused_net.specs.Laws.{Wired};
ghost use Rattle.nodes.specs.Kinds.{IsMaker, maker_of, writes_of};
ghost use Rattle.interpreter.specs.Parts.{input_count_at, output_count_at, ins_in, outs_in, IsUnused, AllUnused, IsWiring, IsSized, ends_of, wire_number, BecomesOf, Becomes, AllBecome, written};
ghost use Rattle.interpreter.specs.declared.parts.Place.{Place};

use elem_core::why::NoMemory;
use fused_net::net::{Ports, WireEnds};
use graph_stage::handlers::Handlers;
use graph_stage::stage::CustomStage;
use line_chain::line::LineChain;
use nodes::entering::Entering;
use nodes::ignoring::IgnoreSink;
use nodes::leaving::Leaving;
use nodes::maker::ValueSource;
use nodes::node::IslandNode;
use nodes::sink::{FileSink, Writes};
use nodes::source::LinesSource;
use plug_logic::book::PlugBook;
use plug_logic::logic::Logic;
use stage_in::logic::InLogic;
use stage_linear::logic::LinearLogic;
use stage_out::logic::OutLogic;
use stage_state::logic::StateLogic;
use stage_sub::logic::SubLogic;
use std::alloc::Global;
use stream_io::line_reader::LineReader;
use stream_io::outside::{Drain, Source};
use stream_model::kind::Kind;

// Choice: docs/DECISIONS.md#islands-name-nodes
/// A wire of an island, by its number in the blueprint, from an output to an input; `from` and `to` are places among the
/// island's nodes. Akka calls this a `Connection`, with its `id` and its owners.
#[derive(Clone, Copy)]
pub struct Link {
    /// The number of the wire in the blueprint.
    pub wire: u32,
    /// The place of the node whose output it is.
    pub from: u32,
    /// Which of its outputs.
    pub output: u8,
    /// The place of the node whose input it is.
    pub to: u32,
    /// Which of its inputs.
    pub input: u8,
}

// Choice: docs/DECISIONS.md#work-has-its-ports
/// What stands at a place of an island. Akka calls this a `GraphStageLogic`, before its `preStart`.
pub enum Work<S: Source, D: Drain, L: Logic, H: Handlers, B: PlugBook> {
    /// A source of the lines that a reader reads.
    Reading(LineReader<S>),
    /// A source of this kind, which has no file.
    Making(Kind),
    /// A linear stage.
    Linear(LinearLogic<L, B>),
    /// A stage with state.
    State(StateLogic),
    /// A stage with substreams.
    Sub(SubLogic<LineChain>),
    /// A stage with so many inputs.
    FanIn(InLogic, u32),
    /// A stage with so many outputs.
    FanOut(OutLogic, u32),
    /// A stage that the caller hands in, with so many inputs and so many outputs.
    Custom(CustomStage<H, B>, u32, u32),
    /// A sink of this kind, with the drain of its file, if it has one.
    Writing(Kind, Option<D>),
    /// The stage at which the lane that is this wire comes in; the number of its node is not used.
    LaneIn(u32),
    /// The stage at which the lane that is this wire goes out; the number of its node is not used.
    LaneOut(u32),
}

// Dropped by a call, wherever it is dropped: else each crate above proves the drop of each of its parts again.
impl<S: Source, D: Drain, L: Logic, H: Handlers, B: PlugBook> Drop for Work<S, D, L, H, B> {
    fn drop(self) {
        match self {
            Work::Reading(_) => {}
            Work::Making(_) => {}
            Work::Linear(_) => {}
            Work::State(_) => {}
            Work::Sub(_) => {}
            Work::FanIn(_, _) => {}
            Work::FanOut(_, _) => {}
            Work::Custom(_, _, _) => {}
            Work::Writing(_, _) => {}
            Work::LaneIn(_) | Work::LaneOut(_) => {}
        }
    }
}

/// A work with the number of its node in the blueprint. Akka calls this a `GraphStageLogic`, with its `stageId`.
pub struct Seated<S: Source, D: Drain, L: Logic, H: Handlers, B: PlugBook> {
    /// The number of its node.
    pub node: u32,
    /// How many lines it may put together, where it is a sink that writes each: one where no lane leads to it.
    pub room: u32,
    /// What it does.
    pub work: Work<S, D, L, H, B>,
}

// Dropped by a call, as its work is.
impl<S: Source, D: Drain, L: Logic, H: Handlers, B: PlugBook> Drop for Seated<S, D, L, H, B> {
    fn drop(self) {
        let Seated {
            node: _,
            room: _,
            work: _,
        } = self;
    }
}

/// The parts of an island. Akka calls these the logics and connections that a `GraphInterpreterShell` is made from.
#[derive(Drop)]
pub struct Parts<S: Source, D: Drain, L: Logic, H: Handlers, B: PlugBook> {
    /// What stands at each of its places.
    pub nodes: Vec<Seated<S, D, L, H, B>>,
    /// Its wires.
    pub links: Vec<Link>,
}

/// What is known of a place before its work holds its handle.
#[derive(Clone, Copy)]
pub struct Place {
    /// The number of its node.
    pub node: u32,
    /// How many inputs it has.
    pub inputs: u32,
    /// How many outputs it has.
    pub outputs: u32,
}

impl<S: Source, D: Drain, L: Logic, H: Handlers, B: PlugBook> Work<S, D, L, H, B> {
    // The node of this number, which did nothing yet, and which may put so many lines together.
    fn into_node(self, alloc: Global, node: u32, room: u32) -> IslandNode<S, D, L, H, B>
        requires { IsUnused self }
        ensures { BecomesOf node room self result }
    {
        match self {
            Work::Reading(reader) => IslandNode::Reading(LinesSource::new(node, reader)),
            Work::Making(kind) => IslandNode::Making(maker(node, kind)),
            Work::Linear(logic) => IslandNode::Linear(logic),
            Work::State(logic) => IslandNode::State(logic),
            Work::Sub(logic) => IslandNode::Sub(logic),
            Work::FanIn(logic, _) => IslandNode::FanIn(logic),
            Work::FanOut(logic, _) => IslandNode::FanOut(logic),
            Work::Custom(stage, _, _) => IslandNode::Custom(stage),
            Work::LaneIn(wire) => IslandNode::Entering(Entering::new(wire)),
            Work::LaneOut(wire) => IslandNode::Leaving(Leaving::new(wire)),
            Work::Writing(kind, drain) => {
                let writes = written(kind);
                match drain {
                    Some(drain) => {
                        IslandNode::Writing(FileSink::new(alloc, node, writes, room, drain))
                    }
                    None => IslandNode::Ignoring(IgnoreSink::new(node)),
                }
            }
        }
    }
}

impl<S: Source, D: Drain, L: Logic, H: Handlers, B: PlugBook> Seated<S, D, L, H, B> {
    /// The node of a work that did nothing yet.
    pub fn build(self, alloc: Global) -> IslandNode<S, D, L, H, B>
        requires { IsUnused self.work }
        ensures { Becomes self result }
    {
        let Seated { node, room, work } = self;
        work.into_node(alloc, node, room)
    }
}

// The source of this kind, which has no file.
fn maker(node: u32, kind: Kind) -> ValueSource
    requires { IsMaker kind }
    ensures { result ≡ maker_of node kind }
{
    maker_by(node, &kind)
}

fn maker_by(node: u32, kind: &Kind) -> ValueSource
    requires { IsMaker kind.now }
    ensures { result ≡ maker_of node kind.now }
{
    match kind {
        Kind::Range(low, high) => ValueSource::range(node, *low, *high),
        Kind::Empty(_) => ValueSource::empty(node),
        _ => ValueSource::failed(node),
    }
}

// Which elements a sink of this kind writes, where it has a file.
fn written(kind: Kind) -> Writes
    ensures { result ≡ writes_of kind }
{
    written_by(&kind)
}

fn written_by(kind: &Kind) -> Writes
    ensures { result ≡ writes_of kind.now }
{
    match kind {
        Kind::Head(_) => Writes::First,
        Kind::Last(_) => Writes::Last,
        _ => Writes::Each,
    }
}

/// The nodes of works that did nothing yet, in an empty list that has room for them. It takes no memory.
pub fn build_all<S: Source, D: Drain, L: Logic, H: Handlers, B: PlugBook>(
    alloc: Global,
    places: Vec<Seated<S, D, L, H, B>>,
    nodes: Vec<IslandNode<S, D, L, H, B>>,
) -> Vec<IslandNode<S, D, L, H, B>>
    requires unused { AllUnused places.items }
    requires empty { nodes.items ≡ [] }
    requires room { vec_len places ≤ vec_capacity nodes }
    ensures { AllBecome places.items result.items }
{
    let mut nodes = nodes;
    for seated in places {
        nodes.push_reserved(seated.build(alloc));
    }
    nodes
}

/// The ports at the ends of each link.
pub fn all_ends(alloc: Global, links: &[Link]) -> Result<Vec<WireEnds>, NoMemory>
    ensures { IfOk result (λ ends. ends.items ≡ map ends_of links.now) }
{
    let mut ends = Vec::with_capacity(alloc, links.len())?;
    for link in links {
        ends.push(WireEnds {
            from: link.from,
            output: link.output,
            to: link.to,
            input: link.input,
        })?;
    }
    Ok(ends)
}

/// The numbers of the links in the blueprint.
pub fn all_numbers(alloc: Global, links: &[Link]) -> Result<Vec<u32>, NoMemory>
    ensures { IfOk result (λ numbers. numbers.items ≡ map wire_number links.now) }
{
    let mut numbers = Vec::with_capacity(alloc, links.len())?;
    for link in links {
        numbers.push(link.wire)?;
    }
    Ok(numbers)
}

/// The numbers of the places' nodes in the blueprint.
pub fn all_places(alloc: Global, places: &[Place]) -> Result<Vec<u32>, NoMemory>
    ensures { IfOk result (λ numbers. numbers.items ≡ map (λ (p : Place). p.node) places.now) }
{
    let mut numbers = Vec::with_capacity(alloc, places.len())?;
    for place in places {
        numbers.push(place.node)?;
    }
    Ok(numbers)
}

// The rows of a place.
fn blank_row(alloc: Global, place: Place) -> Result<Ports, NoMemory>
    ensures ins { IfOk result (λ row. length row.ins ≡ place.inputs) }
    ensures outs { IfOk result (λ row. length row.outs ≡ place.outputs) }
{
    Ports::sized(alloc, place.inputs as usize, place.outputs as usize)
}

/// A table with a row for each port of each place.
pub fn blank_ports(alloc: Global, places: &[Place]) -> Result<Vec<Ports>, NoMemory>
    ensures { IfOk result (λ ports. IsSized (input_count_at places.now) (output_count_at places.now) (length places.now) ports.items) }
{
    let mut ports = Vec::with_capacity(alloc, places.len())?;
    for n in 0..places.len() {
        ports.push(blank_row(alloc, places[n])?)?;
    }
    Ok(ports)
}

// Writes wire w into the table, at the ports at its ends.
fn write_wire(ports: &mut Vec<Ports>, ends: WireEnds, w: u32)
    requires from { ends.from < length ports.old.items }
    requires to { ends.to < length ports.old.items }
    requires output { ends.output < length (port_at ports.old.items ends.from).outs }
    requires input { ends.input < length (port_at ports.old.items ends.to).ins }
    ensures { ports.new.items ≡ written ports.old.items ends w }
{
    ports[ends.from as usize].set_output(ends.output, w);
    ports[ends.to as usize].set_input(ends.input, w);
}

/// The wires of each place, by its ports, into the table. It takes no memory.
pub fn join_ports(ports: &mut Vec<Ports>, ends: &[WireEnds])
    requires wiring { IsWiring (ins_in ports.old.items) (outs_in ports.old.items) (length ports.old.items) ends.now }
    requires few { length ends.now < 2 ^ 32 }
    ensures sized { IsSized (ins_in ports.old.items) (outs_in ports.old.items) (length ports.old.items) ports.new.items }
    ensures wired { Wired ends.now ports.new.items (length ports.old.items) (length ends.now) }
{
    for w in 0..ends.len() {
        write_wire(ports, ends[w], w as u32);
    }
}
