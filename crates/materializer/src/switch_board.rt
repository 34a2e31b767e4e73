// The kill switches of a blueprint.
ghost use Rattle.std.specs.Prelude.{◌≡◌, ◌<◌, ◌+◌, ◌++◌, List, [], ◌∷◌, Option, None, IfOk, IfSome, OnOk, length, map, slice_get, vec_len};
ghost use Rattle.std.specs.List.{All};
ghost use Rattle.std.specs.Arc.{arc_value};
ghost use Rattle.stage_switch.specs.Public.{SeatState, IsNewSeat};
ghost use Rattle.stream_model.specs.declared.kind.Kind.{Kind};
ghost use Rattle.stage_switch.specs.Settling.{AllSettled};
ghost use Rattle.materializer.specs.Board.{switch_of, is_at_switch, least_at_switch, switch_place, places_in, sits, count_at, IsBoard, AreAtSwitches, AreHanded, seat_of_end, numbered_from, seat_in};
ghost use Rattle.materializer.specs.Dealing.{AreRooted, IsHandedSeat, IsDealt, IsSwitchMade, IsSeatPut, HasRoom, HaveLists, AreEmpty, HaveRoom, HaveSeats, HasAllSeats, AllWhole, IsSettledAt, ListsSettled};

use crate::switch_names::switch_of;
use elem_core::line::Line;
use elem_core::why::NoMemory;
use stage_switch::end::SwitchEnd;
use stage_switch::seat::SwitchSeat;
use stage_switch::switch::Switch;
use std::alloc::{AllocError, Global};
use std::sync::Arc;
use stream_model::blueprint::Node;
use stream_model::kind::Kind;

// Choice: docs/DECISIONS.md#switches-by-mention
/// The kill switches that the valves and trips of a blueprint name. The place of a switch is its least node.
pub struct Board {
    // Of each node the place of its switch.
    places: Vec<Option<usize>>,
    // At each place its switch.
    switches: Vec<Option<Arc<Switch>>>,
    // At each place an empty list, with room for all seats of its switch.
    seats: Vec<Vec<SwitchSeat>>,
}

// Dropped by a call, wherever it is dropped: else each crate above proves the drop of each of its parts again.
impl Drop for Board {
    fn drop(self) {
        let Board {
            places: _,
            switches: _,
            seats: _,
        } = self;
    }
}

/// Whether a node of this kind is at the switch of that name.
fn is_at(kind: &Kind, name: &Line) -> bool
    ensures { result ≡ is_at_switch name.now (switch_of kind.now) }
{
    match switch_of(kind) {
        Some(other) => *other == *name,
        None => false,
    }
}

/// The least node at the switch of that name.
fn first_at(nodes: &[Node], name: &Line) -> Option<usize>
    ensures { result ≡ least_at_switch 0 name.now (map (λ n. n.kind) nodes.now) }
{
    for (k, node) in nodes.iter().enumerate() {
        if is_at(&node.kind, name) {
            return Some(k);
        }
    }
    None
}

/// The place of a node of this kind.
fn switch_place(nodes: &[Node], kind: &Kind) -> Option<usize>
    ensures { result ≡ switch_place (map (λ n. n.kind) nodes.now) kind.now }
{
    match switch_of(kind) {
        Some(name) => first_at(nodes, name),
        None => None,
    }
}

/// The places of all nodes.
fn places_in(alloc: Global, nodes: &[Node]) -> Result<Vec<Option<usize>>, NoMemory>
    ensures { IfOk result (λ places. places.items ≡ places_in (map (λ n. n.kind) nodes.now)) }
{
    let mut places = Vec::new(alloc);
    for node in nodes {
        places.push(switch_place(nodes, &node.kind))?;
    }
    Ok(places)
}

/// Whether a node with this place sits at place j.
fn sits(place: &Option<usize>, j: usize) -> bool
    ensures { result ≡ sits j place.now }
{
    match place {
        Some(at) => *at == j,
        None => false,
    }
}

/// How many nodes sit at place j.
fn count_at(places: &[Option<usize>], j: usize) -> usize
    ensures { result ≡ count_at j places.now }
{
    places.iter().filter(|place| sits(place, j)).count()
}

// Choice: docs/DECISIONS.md#empty-places
/// A number of seats; one that is out of 32 bits is want of memory.
fn counted(seats: usize) -> Result<u32, NoMemory>
    ensures { IfOk result (λ n. n ≡ seats) }
{
    match u32::try_from(seats) {
        Ok(count) => Ok(count),
        Err(_) => Err(AllocError),
    }
}

/// As many ends as there are nodes, none of which is there yet.
fn no_ends(alloc: Global, nodes: usize) -> Result<Vec<Option<SwitchEnd>>, NoMemory>
    ensures many { IfOk result (λ ends. length ends.items ≡ nodes) }
    ensures none { IfOk result (λ ends. All (λ e. e ≡ None) ends.items) }
{
    let mut ends = Vec::new(alloc);
    for _ in 0..nodes {
        ends.push(None)?;
    }
    Ok(ends)
}

/// The last of some seats.
fn last(seats: &mut Vec<SwitchSeat>) -> SwitchSeat
    requires { 0 < vec_len seats.old }
    ensures items { seats.old.items ≡ seats.new.items ++ result ∷ [] }
    ensures len { vec_len seats.old ≡ vec_len seats.new + 1 }
{
    seats.pop().unwrap()
}

/// Hands the last of the seats of a switch to node k.
fn hand(
    switch: &Arc<Switch>,
    seats: &mut Vec<SwitchSeat>,
    ends: &mut Vec<Option<SwitchEnd>>,
    k: usize,
) -> Result<(), NoMemory>
    requires some { 0 < vec_len seats.old }
    requires within { k < length ends.old.items }
    ensures { OnOk result (IsHandedSeat (arc_value switch.now) k seats.old.items seats.new.items ends.old.items ends.new.items) }
{
    let own = Arc::try_clone(switch)?;
    let seat = last(seats);
    ends[k] = Some(SwitchEnd { switch: own, seat });
    Ok(())
}

/// Hands out the seats of the switch at place j, one to each node that sits there.
fn deal(
    places: &[Option<usize>],
    j: usize,
    switch: &Arc<Switch>,
    mut seats: Vec<SwitchSeat>,
    ends: &mut Vec<Option<SwitchEnd>>,
) -> Result<(), NoMemory>
    requires many { vec_len seats ≡ count_at j places.now }
    requires new { All (IsNewSeat (arc_value switch.now)) seats.items }
    requires ends { length ends.old.items ≡ length places.now }
    ensures { OnOk result (IsDealt j (arc_value switch.now) places.now ends.old.items ends.new.items) }
{
    for (k, place) in places.iter().enumerate() {
        if sits(place, j) {
            hand(switch, &mut seats, ends, k)?;
        }
    }
    Ok(())
}

/// The switch at place j, where nodes sit there, whose seats are handed out, and an empty list with room for them.
fn make(
    alloc: Global,
    places: &[Option<usize>],
    j: usize,
    ends: &mut Vec<Option<SwitchEnd>>,
) -> Result<(Option<Arc<Switch>>, Vec<SwitchSeat>), NoMemory>
    requires within { j < length places.now }
    requires rooted { AreRooted places.now }
    requires ends { length ends.old.items ≡ length places.now }
    ensures { IfOk result (λ r. IsSwitchMade j places.now ends.old.items ends.new.items r.0 r.1) }
{
    // So a place where nobody sits costs no count of the nodes.
    if !sits(&places[j], j) {
        return Ok((None, Vec::new(alloc)));
    }
    let count = count_at(places, j);
    let (switch, seats) = Switch::new(alloc, counted(count)?)?;
    let switch = Arc::new(alloc, switch)?;
    deal(places, j, &switch, seats, ends)?;
    Ok((Some(switch), Vec::with_capacity(alloc, count)?))
}

/// Puts the seat of a node into the list of its place, which has room for it.
fn put(places: &[Option<usize>], lists: &mut Vec<Vec<SwitchSeat>>, node: usize, seat: SwitchSeat)
    requires within { node < length places.now }
    requires room { HasRoom (slice_get places.now node) lists.old.items }
    ensures { IsSeatPut (slice_get places.now node) seat lists.old.items lists.new.items }
{
    if let Some(j) = places[node] {
        lists[j].push_reserved(seat);
    }
}

/// Puts the seats of nodes into the lists of their places.
fn put_all(
    places: &[Option<usize>],
    lists: Vec<Vec<SwitchSeat>>,
    seats: Vec<(u32, SwitchSeat)>,
) -> Vec<Vec<SwitchSeat>>
    requires nodes { All (λ x. x.0 < length places.now) seats.items }
    requires lists { HaveLists places.now lists.items }
    requires empty { AreEmpty lists.items }
    requires room { HaveRoom places.now seats.items lists.items }
    ensures many { length result.items ≡ length lists.items }
    ensures seats { HaveSeats places.now seats.items result.items }
{
    let mut lists = lists;
    let mut seats = seats;
    while let Some(entry) = seats.pop() {
        let (node, seat) = entry;
        put(places, &mut lists, node as usize, seat);
    }
    lists
}

/// Puts together the seats of a place, where it has a switch.
fn settle_at(switch: &Option<Arc<Switch>>, seats: Vec<SwitchSeat>)
    requires { IfSome switch.now (λ s. HasAllSeats (arc_value s) seats) }
    ensures { IfSome switch.now (λ s. IsSettledAt seats) }
{
    if let Some(switch) = switch {
        let _ = switch.settle(seats);
    }
}

/// Puts together the seats of all places.
fn settle_all(switches: &[Option<Arc<Switch>>], lists: Vec<Vec<SwitchSeat>>)
    requires many { length lists.items ≡ length switches.now }
    requires whole { AllWhole switches.now lists.items }
    ensures { ListsSettled switches.now lists.items }
{
    let mut lists = lists;
    while let Some(list) = lists.pop() {
        settle_at(&switches[lists.len()], list);
    }
}

impl Board {
    /// The board of these nodes: a switch for each that a valve or a trip names, with as many seats as nodes name it; and of each
    /// node what it has of its switch. It takes all memory that its switches ever take.
    pub fn of(alloc: Global, nodes: &[Node]) -> Result<(Board, Vec<Option<SwitchEnd>>), NoMemory>
        ensures board { IfOk result (λ r. IsBoard (map (λ n. n.kind) nodes.now) r.0) }
        ensures ends { IfOk result (λ r. AreAtSwitches (map (λ n. n.kind) nodes.now) r.0 (map seat_of_end r.1.items)) }
        ensures handed { IfOk result (λ r. AreHanded (map (λ n. n.kind) nodes.now) r.1.items) }
    {
        let places = places_in(alloc, nodes)?;
        let mut ends = no_ends(alloc, places.len())?;
        let mut switches = Vec::new(alloc);
        let mut seats = Vec::new(alloc);
        for j in 0..places.len() {
            let (switch, list) = make(alloc, &places, j, &mut ends)?;
            switches.push(switch)?;
            seats.push(list)?;
        }
        Ok((
            Board {
                places,
                switches,
                seats,
            },
            ends,
        ))
    }

    /// Puts together the seats of each switch, which come with the numbers of their nodes, in order. Each order that one of them
    /// knew is the one that stands at its switch, and one of them gave it. It takes no memory.
    pub fn settle(self, seats: Vec<(u32, SwitchSeat)>)
        requires { (kinds : List Kind) × ((all : List (Option SeatState)) × (IsBoard kinds self
            × (AreAtSwitches kinds self all × (seats.items ≡ numbered_from 0 all)))) }
        ensures { (kinds : List Kind) (all : List (Option SeatState)) → IsBoard kinds self → AreAtSwitches kinds self all → seats.items ≡ numbered_from 0 all
            → AllSettled kinds (seat_in all) }
    {
        let Board {
            places,
            switches,
            seats: lists,
        } = self;
        settle_all(&switches, put_all(&places, lists, seats));
    }
}
