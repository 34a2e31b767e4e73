// What stands at the place of each node.
ghost use Rattle.std.specs.Prelude.{◌≡◌, length, ◌+◌, ◌<◌, ◌≤◌, ◌^◌, List, [], ◌∷◌, true, Some, None, IfOk, IfSome, map, vec_len, vec_capacity};
ghost use Rattle.std.specs.List.{list_all};
ghost use Rattle.std.specs.Vec.Iter.{into_iter_items, into_iter_len};
ghost use Rattle.blue_names.specs.Sizes.{sizes_fit};
ghost use Rattle.stage_linear.specs.States.{HasTask};
ghost use Rattle.stage_state.specs.Logics.{IsStateful};
ghost use Rattle.stage_sub.specs.Handling.{IsSub};
ghost use Rattle.stage_in.specs.Logics.{IsFanIn};
ghost use Rattle.stage_out.specs.OutLogics.{IsOut};
ghost use Rattle.stream_model.specs.declared.blueprint.Node as blue;
ghost use Rattle.stream_model.specs.declared.blueprint.WireDecl.{WireDecl};
ghost use Rattle.materializer.specs.Ports.{used_ports};
ghost use Rattle.materializer.specs.Files.{source_file, output_of};
ghost use Rattle.materializer.specs.Graphs.{Around, graph_chain};
ghost use Rattle.materializer.specs.Board.{switch_of, IsHandedAt, AreHanded, seat_of_end};
ghost use Rattle.materializer.specs.Seats.{IsFreeWork, AreSeats, work_seat, place_seat, place_plan, place_room, place_types, WorkMayFollow, WorkFollows};
ghost use Rattle.materializer.specs.Choosers.{moves_of, PlanFits, PlansFit};
ghost use Rattle.materializer.specs.Planned.{IsPlanned, IsFreePlan, IsSeat, ArePlanned, Fills, seat_of_plan, planned_seat, planned_plan, planned_room, planned_types, types_of_planned, PlannedMayFollow, PlannedFollows, reads, writes, reads_in, writes_in};
ghost use Rattle.materializer.specs.HandedPlugs.{GivesAsListed};
ghost use Rattle.materializer.specs.HandedCustoms.{TellsAsListed, IsGuest, AreGuests, HasPorts, HaveUsedPorts, guest_types};
ghost use Rattle.blue_names.specs.CustomPorts.{custom_of, head_fits};
ghost use Rattle.blue_names.specs.Names.{plug_of};
ghost use Rattle.stream_model.specs.Known.{head_shape};
ghost use Rattle.stream_model.specs.Graph as graph;
ghost use Rattle.stream_model.specs.declared.kind.Kind.TheVariants as kind;

use crate::chains::steps_of_kind;
use crate::guest::Guest;
use blue_names::ports::{input_ports, output_ports};
use elem_core::count::numbered;
use elem_core::why::{Decider, NoMemory};
use graph_stage::custom::Custom;
use graph_stage::handlers::Handlers;
use graph_stage::stage::CustomStage;
use interpreter::parts::{Seated, Work};
use line_chain::line::LineChain;
use plug_logic::book::PlugBook;
use plug_logic::logic::Logic;
use plug_logic::plug::Plug;
use stage_in::logic::InLogic;
use stage_linear::logic::LinearLogic;
use stage_out::logic::OutLogic;
use stage_state::logic::StateLogic;
use stage_sub::logic::SubLogic;
use stage_switch::end::SwitchEnd;
use std::alloc::Global;
use std::vec::IntoIter;
use stream_io::line_reader::LineReader;
use stream_io::outside::{Drain, Source};
use stream_model::blueprint::{ChainDecl, Node};
use stream_model::kind::Kind;

/// What is to stand at a place, before its handle is there.
#[derive(Drop)]
pub enum Planned<S: Source, D: Drain, L: Logic, H: Handlers, B: PlugBook> {
    /// A source of lines.
    Reads,
    /// A sink of this kind, which has a file.
    Writes(Kind),
    /// A work that wants no handle.
    Works(Work<S, D, L, H, B>),
}

/// The same, with the number of its node in the blueprint.
#[derive(Drop)]
pub struct Seat<S: Source, D: Drain, L: Logic, H: Handlers, B: PlugBook> {
    pub(crate) node: u32,
    pub(crate) room: u32,
    pub(crate) planned: Planned<S, D, L, H, B>,
}

/// The next handle of some.
pub(crate) fn take_next<T: Drop>(handles: &mut IntoIter<T, Global>) -> T
    requires { 0 < into_iter_len handles.old }
    ensures items { into_iter_items handles.old ≡ result ∷ into_iter_items handles.new }
    ensures len { into_iter_len handles.old ≡ into_iter_len handles.new + 1 }
{
    match handles.next() {
        Some(handle) => handle,
        None => unreachable!(),
    }
}

/// What a linear stage does at node k.
fn linear_work<S: Source, D: Drain, L: Logic, H: Handlers, B: PlugBook>(
    k: u32,
    kind: Kind,
    decider: Decider,
) -> Result<Work<S, D, L, H, B>, NoMemory>
    requires { HasTask kind }
    ensures work { IfOk result (λ w. (chains : List graph.Chain) → IsFreeWork chains k kind decider w) }
    ensures seat { IfOk result (λ w. work_seat w ≡ None) }
{
    Ok(Work::Linear(LinearLogic::new(k, kind, decider)?))
}

/// What a stage with state does at node k. A valve and a trip have this of their switch.
fn state_work<S: Source, D: Drain, L: Logic, H: Handlers, B: PlugBook>(
    alloc: Global,
    k: u32,
    kind: Kind,
    decider: Decider,
    switch: Option<SwitchEnd>,
) -> Result<Work<S, D, L, H, B>, NoMemory>
    requires kind { IsStateful kind }
    requires handed { IsHandedAt (switch_of kind) switch }
    ensures work { IfOk result (λ w. (chains : List graph.Chain) → IsFreeWork chains k kind decider w) }
    ensures seat { IfOk result (λ w. work_seat w ≡ seat_of_end switch) }
{
    Ok(Work::State(StateLogic::new(alloc, k, kind, decider, switch)?))
}

/// What a stage with substreams does at node k: each of them goes through the chain of these that it names.
fn sub_work<S: Source, D: Drain, L: Logic, H: Handlers, B: PlugBook>(
    alloc: Global,
    chains: &[ChainDecl],
    k: u32,
    kind: Kind,
    decider: Decider,
) -> Result<Work<S, D, L, H, B>, NoMemory>
    requires { IsSub kind }
    ensures work { IfOk result (IsFreeWork (map graph_chain chains.now) k kind decider) }
    ensures seat { IfOk result (λ w. work_seat w ≡ None) }
{
    let chain = LineChain::new(alloc, k, steps_of_kind(chains, &kind))?;
    let logic = SubLogic::new(alloc, k, kind, decider, chain)?;
    Ok(Work::Sub(logic))
}

/// What a stage with several inputs does at node k.
fn fan_in_work<S: Source, D: Drain, L: Logic, H: Handlers, B: PlugBook>(
    alloc: Global,
    k: u32,
    kind: Kind,
    decider: Decider,
) -> Result<Work<S, D, L, H, B>, NoMemory>
    requires { IsFanIn kind }
    ensures work { IfOk result (λ w. (chains : List graph.Chain) → IsFreeWork chains k kind decider w) }
    ensures seat { IfOk result (λ w. work_seat w ≡ None) }
{
    let inputs = input_ports((0, 0), &kind);
    Ok(Work::FanIn(InLogic::new(alloc, k, kind, decider)?, inputs))
}

/// What a stage with several outputs does at node k.
fn fan_out_work<S: Source, D: Drain, L: Logic, H: Handlers, B: PlugBook>(
    alloc: Global,
    k: u32,
    kind: Kind,
    decider: Decider,
) -> Result<Work<S, D, L, H, B>, NoMemory>
    requires { IsOut kind }
    ensures work { IfOk result (λ w. (chains : List graph.Chain) → IsFreeWork chains k kind decider w) }
    ensures seat { IfOk result (λ w. work_seat w ≡ None) }
{
    let outputs = output_ports((0, 0), &kind);
    Ok(Work::FanOut(OutLogic::new(alloc, k, kind, decider)?, outputs))
}

/// What node k does, where it has no file, is at no switch and names no plug and no custom stage.
fn free_work<S: Source, D: Drain, L: Logic, H: Handlers, B: PlugBook>(
    alloc: Global,
    chains: &[ChainDecl],
    k: u32,
    kind: Kind,
    decider: Decider,
) -> Result<Work<S, D, L, H, B>, NoMemory>
    requires sized { sizes_fit kind ≡ true }
    requires no_input { source_file kind ≡ None }
    requires no_output { output_of kind ≡ None }
    requires no_switch { switch_of kind ≡ None }
    requires no_plug { plug_of kind ≡ None }
    requires no_custom { custom_of kind ≡ None }
    ensures work { IfOk result (IsFreeWork (map graph_chain chains.now) k kind decider) }
    ensures seat { IfOk result (λ w. work_seat w ≡ None) }
    ensures no_input { source_file kind ≡ None }
    ensures no_output { output_of kind ≡ None }
{
    Ok(match kind {
        Kind::Range(_, _) | Kind::Empty(_) | Kind::Failed(_) => Work::Making(kind),
        Kind::Ignore => Work::Writing(kind, None),
        Kind::Grouped(_)
        | Kind::Fold(_)
        | Kind::Reduce(_)
        | Kind::Scan(_)
        | Kind::Buffer(_, _)
        | Kind::RecoverNum(_)
        | Kind::RecoverText(_) => state_work(alloc, k, kind, decider, None)?,
        Kind::GroupBy(_, _, _) | Kind::SplitWhen(_, _, _) | Kind::SplitAfter(_, _, _) => {
            sub_work(alloc, chains, k, kind, decider)?
        }
        Kind::Merge(_)
        | Kind::MergeHub(_, _)
        | Kind::Concat(_)
        | Kind::Interleave(_, _)
        | Kind::MergeSorted
        | Kind::Zip => fan_in_work(alloc, k, kind, decider)?,
        Kind::Broadcast(_)
        | Kind::BroadcastHub(_, _)
        | Kind::Balance(_)
        | Kind::Partition(_, _)
        | Kind::Unzip => fan_out_work(alloc, k, kind, decider)?,
        _ => linear_work(k, kind, decider)?,
    })
}

/// What stands at the place of node k, which is at no switch and names no plug and no custom stage, and whose handle is not there yet.
fn free_seat<S: Source, D: Drain, L: Logic, H: Handlers, B: PlugBook>(
    alloc: Global,
    chains: &[ChainDecl],
    k: u32,
    kind: Kind,
    decider: Decider,
) -> Result<Planned<S, D, L, H, B>, NoMemory>
    requires sized { sizes_fit kind ≡ true }
    requires no_switch { switch_of kind ≡ None }
    requires no_plug { plug_of kind ≡ None }
    requires no_custom { custom_of kind ≡ None }
    ensures planned { IfOk result (λ p. (wires : List WireDecl) (node : blue.Node) → node.kind ≡ kind → node.decider ≡ decider
        → IsPlanned (record { chains = map graph_chain chains.now; wires = wires }) k node p) }
    ensures seat { IfOk result (λ p. seat_of_plan p ≡ None) }
{
    Ok(match kind {
        Kind::Lines(_) => Planned::Reads,
        Kind::ToLines(_) | Kind::Head(_) | Kind::Last(_) => Planned::Writes(kind),
        _ => Planned::Works(free_work(alloc, chains, k, kind, decider)?),
    })
}

/// What is to stand at the place of node k, which names no plug and no custom stage. A valve and a trip have this of their switch.
#[tactic(auto, using(crate::proofs::Switches::at_no_switch, crate::proofs::Switches::at_switch_keeps))]
fn unplugged<S: Source, D: Drain, L: Logic, H: Handlers, B: PlugBook>(
    alloc: Global,
    chains: &[ChainDecl],
    k: u32,
    kind: Kind,
    decider: Decider,
    switch: Option<SwitchEnd>,
) -> Result<Planned<S, D, L, H, B>, NoMemory>
    requires sized { sizes_fit kind ≡ true }
    requires handed { IsHandedAt (switch_of kind) switch }
    requires no_plug { plug_of kind ≡ None }
    requires no_custom { custom_of kind ≡ None }
    ensures planned { IfOk result (λ p. (wires : List WireDecl) (node : blue.Node) → node.kind ≡ kind → node.decider ≡ decider
        → IsPlanned (record { chains = map graph_chain chains.now; wires = wires }) k node p) }
    ensures seat { IfOk result (λ p. seat_of_plan p ≡ seat_of_end switch) }
{
    match switch {
        Some(end) => Ok(Planned::Works(state_work(alloc, k, kind, decider, Some(end))?)),
        None => {
            let planned = free_seat(alloc, chains, k, kind, decider)?;
            Ok(planned)
        }
    }
}

/// What is to stand at the place of node k, which names this plug.
fn plugged<S: Source, D: Drain, L: Logic, H: Handlers, B: PlugBook>(
    k: u32,
    plug: Plug<L>,
    decider: Decider,
) -> Planned<S, D, L, H, B>
    requires { GivesAsListed L.gives B.lists plug }
    ensures planned { (around : Around) (node : blue.Node) → node.kind ≡ kind.Plug plug.head.name → node.decider ≡ decider
        → IsPlanned around k node result }
    ensures types { types_of_planned result ≡ None }
    ensures seat { seat_of_plan result ≡ None }
{
    Planned::Works(Work::Linear(LinearLogic::of_plug(k, plug, decider)))
}

/// What is to stand at the place of node k, which names this custom stage.
fn hired<S: Source, D: Drain, L: Logic, H: Handlers, B: PlugBook>(
    alloc: Global,
    k: u32,
    custom: Custom<H>,
) -> Result<Planned<S, D, L, H, B>, NoMemory>
    requires fits { head_fits (Some (head_shape custom.head)) ≡ true }
    requires told { TellsAsListed H.tells B.lists custom }
    ensures planned { IfOk result (λ p. (around : Around) (node : blue.Node) → node.kind ≡ kind.Custom custom.head.name
        → used_ports around.wires node.name ≡ (length custom.head.inputs.items, length custom.head.outputs.items) → IsPlanned around k node p) }
    ensures free { IfOk result (λ p. (chains : List graph.Chain) (node : blue.Node) → node.kind ≡ kind.Custom custom.head.name
        → IsFreePlan chains k node p) }
    ensures types { IfOk result (λ p. types_of_planned p ≡ Some custom.head.outputs.items) }
    ensures seat { IfOk result (λ p. seat_of_plan p ≡ None) }
{
    let inputs = custom.head.inputs.len() as u32;
    let outputs = custom.head.outputs.len() as u32;
    let stage = CustomStage::new(alloc, k, custom)?;
    Ok(Planned::Works(Work::Custom(stage, inputs, outputs)))
}

/// What is to stand at the place of node k of this kind, which names a stage that the caller made: this one.
fn invited<S: Source, D: Drain, L: Logic, H: Handlers, B: PlugBook>(
    alloc: Global,
    k: u32,
    kind: Kind,
    decider: Decider,
    guest: Guest<L, H>,
) -> Result<Planned<S, D, L, H, B>, NoMemory>
    requires { IsGuest L.gives H.tells B.lists (plug_of kind) (custom_of kind) (Some guest) }
    ensures planned { IfOk result (λ p. (around : Around) (node : blue.Node) → node.kind ≡ kind → node.decider ≡ decider
        → HasPorts (used_ports around.wires node.name) (Some guest) → IsPlanned around k node p) }
    ensures free { IfOk result (λ p. (chains : List graph.Chain) (node : blue.Node) → node.kind ≡ kind → node.decider ≡ decider
        → IsFreePlan chains k node p) }
    ensures types { IfOk result (λ p. types_of_planned p ≡ guest_types (Some guest)) }
    ensures seat { IfOk result (λ p. seat_of_plan p ≡ None) }
{
    let _ = kind;
    match guest {
        Guest::Plug(plug) => Ok(plugged(k, plug, decider)),
        Guest::Custom(custom) => {
            let planned = hired(alloc, k, custom)?;
            Ok(planned)
        }
    }
}

/// What is to stand at the place of node k. A valve and a trip have this of their switch, and a stage that the caller made is this
/// guest.
fn stand<S: Source, D: Drain, L: Logic, H: Handlers, B: PlugBook>(
    alloc: Global,
    chains: &[ChainDecl],
    k: u32,
    kind: Kind,
    decider: Decider,
    switch: Option<SwitchEnd>,
    guest: Option<Guest<L, H>>,
) -> Result<Planned<S, D, L, H, B>, NoMemory>
    requires sized { sizes_fit kind ≡ true }
    requires handed { IsHandedAt (switch_of kind) switch }
    requires guest { IsGuest L.gives H.tells B.lists (plug_of kind) (custom_of kind) guest }
    ensures planned { IfOk result (λ p. (wires : List WireDecl) (node : blue.Node) → node.kind ≡ kind → node.decider ≡ decider
        → HasPorts (used_ports wires node.name) guest → IsPlanned (record { chains = map graph_chain chains.now; wires = wires }) k node p) }
    ensures free { IfOk result (λ p. (node : blue.Node) → node.kind ≡ kind → node.decider ≡ decider
        → IsFreePlan (map graph_chain chains.now) k node p) }
    ensures types { IfOk result (λ p. types_of_planned p ≡ guest_types guest) }
    ensures seat { IfOk result (λ p. seat_of_plan p ≡ seat_of_end switch) }
{
    match guest {
        Some(guest) => {
            let planned = invited(alloc, k, kind, decider, guest)?;
            Ok(planned)
        }
        None => {
            let planned = unplugged(alloc, chains, k, kind, decider, switch)?;
            Ok(planned)
        }
    }
}

/// From now on a work that chooses follows these moves.
fn follow<S: Source, D: Drain, L: Logic, H: Handlers, B: PlugBook>(
    work: &mut Work<S, D, L, H, B>,
    moves: Vec<u32>,
)
    requires may { WorkMayFollow moves.items work.old }
    requires few { vec_len moves < 2 ^ 32 }
    ensures { WorkFollows moves.items work.old work.new }
{
    match work {
        Work::State(logic) => logic.follow(moves),
        Work::FanIn(logic, _) => logic.follow(moves),
        Work::FanOut(logic, _) => logic.follow(moves),
        Work::Sub(logic) => logic.follow(moves),
        _ => unreachable!(),
    }
}

/// What is to stand at a place, which follows these moves, where there are some.
fn led<S: Source, D: Drain, L: Logic, H: Handlers, B: PlugBook>(
    planned: Planned<S, D, L, H, B>,
    moves: Option<Vec<u32>>,
) -> Planned<S, D, L, H, B>
    requires { IfSome moves (λ m. PlannedMayFollow m.items planned × (vec_len m < 2 ^ 32)) }
    ensures { PlannedFollows (moves_of moves) planned result }
{
    let mut planned = planned;
    if let Some(moves) = moves {
        match &mut planned {
            Planned::Works(work) => follow(work, moves),
            Planned::Reads | Planned::Writes(_) => unreachable!(),
        }
    }
    planned
}

/// What stands at the place of node k, whose handle is not there yet. A valve and a trip have this of their switch, a stage that
/// the caller made is this guest, and one that chooses follows these moves, where there are some.
fn plan<S: Source, D: Drain, L: Logic, H: Handlers, B: PlugBook>(
    alloc: Global,
    chains: &[ChainDecl],
    k: u32,
    node: Node,
    room: u32,
    switch: Option<SwitchEnd>,
    guest: Option<Guest<L, H>>,
    moves: Option<Vec<u32>>,
) -> Result<Seat<S, D, L, H, B>, NoMemory>
    requires sized { sizes_fit node.kind ≡ true }
    requires handed { IsHandedAt (switch_of node.kind) switch }
    requires guest { IsGuest L.gives H.tells B.lists (plug_of node.kind) (custom_of node.kind) guest }
    requires follows { PlanFits node.kind (moves_of moves) }
    ensures planned { IfOk result (λ s. (wires : List WireDecl) → HasPorts (used_ports wires node.name) guest
        → IsSeat (record { chains = map graph_chain chains.now; wires = wires }) k node s) }
    ensures seat { IfOk result (λ s. planned_seat s ≡ seat_of_end switch) }
    ensures plan { IfOk result (λ s. planned_plan s ≡ moves_of moves) }
    ensures room { IfOk result (λ s. s.room ≡ room) }
    ensures types { IfOk result (λ s. planned_types s ≡ guest_types guest) }
{
    let Node {
        name,
        kind,
        decider,
    } = node;
    let _ = name;
    let planned = stand(alloc, chains, k, kind, decider, switch, guest)?;
    Ok(Seat {
        node: k,
        room,
        planned: led(planned, moves),
    })
}

/// The nodes in order, each at its place, whose handles are not there yet. Each is handed what it has of its switch: a valve and a
/// trip a seat that gave nothing and knows nothing; and a node that names a plug or a custom stage is handed that. A stage that chooses follows its
/// moves of `plans`, where there are some. The substreams of a
/// stage go through the chain of these that it names.
pub fn seat_all<S: Source, D: Drain, L: Logic, H: Handlers, B: PlugBook>(
    alloc: Global,
    chains: &[ChainDecl],
    nodes: Vec<Node>,
    rooms: Vec<u32>,
    ends: Vec<Option<SwitchEnd>>,
    guests: Vec<Option<Guest<L, H>>>,
    plans: Vec<Option<Vec<u32>>>,
) -> Result<Vec<Seat<S, D, L, H, B>>, NoMemory>
    requires sized { list_all (λ n. sizes_fit n.kind) nodes.items ≡ true }
    requires handed { AreHanded (map (λ n. n.kind) nodes.items) ends.items }
    requires guests { AreGuests L.gives H.tells B.lists (map (λ n. n.kind) nodes.items) guests.items }
    requires follow { PlansFit (map (λ n. n.kind) nodes.items) (map moves_of plans.items) }
    requires rooms { vec_len rooms ≡ vec_len nodes }
    ensures planned { IfOk result (λ seats. (wires : List WireDecl) → HaveUsedPorts wires nodes.items guests.items
        → ArePlanned (record { chains = map graph_chain chains.now; wires = wires }) 0 nodes.items seats.items) }
    ensures seats { IfOk result (λ seats. map planned_seat seats.items ≡ map seat_of_end ends.items) }
    ensures plans { IfOk result (λ seats. map planned_plan seats.items ≡ map moves_of plans.items) }
    ensures rooms { IfOk result (λ seats. map planned_room seats.items ≡ rooms.items) }
    ensures types { IfOk result (λ seats. map planned_types seats.items ≡ map guest_types guests.items) }
{
    let mut unhanded = ends.into_iter();
    let mut unhanded_guests = guests.into_iter();
    let mut unmade = plans.into_iter();
    let mut unroomed = rooms.into_iter();
    let mut seats = Vec::new(alloc);
    for node in nodes {
        let k = numbered(seats.len())?;
        let end = take_next(&mut unhanded);
        let guest = take_next(&mut unhanded_guests);
        let moves = take_next(&mut unmade);
        let room = take_next(&mut unroomed);
        seats.push(plan(alloc, chains, k, node, room, end, guest, moves)?)?;
    }
    Ok(seats)
}

// Choice: docs/DECISIONS.md#handles-in-order
/// The work of a seat: a source of lines reads the next of the sources, a sink with a file writes the next of the drains.
fn fill<S: Source, D: Drain, L: Logic, H: Handlers, B: PlugBook>(
    alloc: Global,
    seat: Seat<S, D, L, H, B>,
    sources: &mut IntoIter<S, Global>,
    drains: &mut IntoIter<D, Global>,
) -> Seated<S, D, L, H, B>
    requires source { reads seat.planned ≤ into_iter_len sources.old }
    requires drain { writes seat.planned ≤ into_iter_len drains.old }
    ensures fills { (around : Around) → Fills around seat (into_iter_items sources.old) (into_iter_items drains.old) result
        (into_iter_items sources.new) (into_iter_items drains.new) }
    ensures seat { place_seat result ≡ planned_seat seat }
    ensures plan { place_plan result ≡ planned_plan seat }
    ensures room { result.room ≡ seat.room }
    ensures types { place_types result ≡ planned_types seat }
    ensures fewer_sources { into_iter_len sources.old ≡ into_iter_len sources.new + reads seat.planned }
    ensures fewer_drains { into_iter_len drains.old ≡ into_iter_len drains.new + writes seat.planned }
{
    let Seat {
        node,
        room,
        planned,
    } = seat;
    let work = match planned {
        Planned::Reads => Work::Reading(LineReader::new(alloc, take_next(sources))),
        Planned::Writes(kind) => Work::Writing(kind, Some(take_next(drains))),
        Planned::Works(work) => work,
    };
    Seated { node, room, work }
}

/// The seats in order, with their handles, into an empty list that has room for them. In their order, each source of lines reads
/// the next of `sources`, and each sink with a file writes the next of `drains`. It takes no memory.
pub fn fill_all<S: Source, D: Drain, L: Logic, H: Handlers, B: PlugBook>(
    alloc: Global,
    seats: Vec<Seat<S, D, L, H, B>>,
    places: Vec<Seated<S, D, L, H, B>>,
    sources: Vec<S>,
    drains: Vec<D>,
) -> Vec<Seated<S, D, L, H, B>>
    requires empty { places.items ≡ [] }
    requires room { vec_len seats ≤ vec_capacity places }
    requires sources { vec_len sources ≡ reads_in seats.items }
    requires drains { vec_len drains ≡ writes_in seats.items }
    ensures seats { (around : Around) (nodes : List blue.Node) → ArePlanned around 0 nodes seats.items
        → AreSeats around 0 nodes sources.items drains.items result.items }
    ensures room { vec_capacity result ≡ vec_capacity places }
    ensures each { vec_len result ≡ vec_len seats }
    ensures kept { map place_seat result.items ≡ map planned_seat seats.items }
    ensures plans { map place_plan result.items ≡ map planned_plan seats.items }
    ensures rooms { map place_room result.items ≡ map planned_room seats.items }
    ensures types { map place_types result.items ≡ map planned_types seats.items }
{
    let mut unread = sources.into_iter();
    let mut unwritten = drains.into_iter();
    let mut places = places;
    for seat in seats {
        places.push_reserved(fill(alloc, seat, &mut unread, &mut unwritten));
    }
    places
}
