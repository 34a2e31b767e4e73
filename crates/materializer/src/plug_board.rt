// Which node is handed which plug or custom stage.
ghost use Rattle.std.specs.Prelude.{◌≡◌, [], List, true, None, map, IfOk};
ghost use Rattle.std.specs.List.{All};
ghost use Rattle.blue_names.specs.Names.{is_named, plug_of, unknown_plug_at};
ghost use Rattle.blue_names.specs.CustomPorts.{custom_of};
ghost use Rattle.materializer.specs.HandedCustoms.{custom_names, handed_heads, TellsAsListed, HasGuests, IsHandedGuest, AreGuests, HaveUsedPorts, guest_types, types_by_heads};
ghost use Rattle.materializer.specs.HandedPlugs.{GivesAsListed};
ghost use Rattle.stream_model.specs.declared.blueprint.WireDecl.{WireDecl};
ghost use Rattle.materializer.specs.Handing.{names_of, plug_place, IsTaken, IsHandedPlug};

use crate::custom_board::hand_custom;
use crate::guest::Guest;
use blue_names::claims::plug_of;
use elem_core::line::Line;
use elem_core::why::NoMemory;
use graph_stage::custom::Custom;
use graph_stage::handlers::Handlers;
use plug_logic::book::PlugBook;
use plug_logic::logic::Logic;
use plug_logic::plug::Plug;
use std::alloc::Global;
use stream_model::blueprint::Node;
use stream_model::kind::Kind;

/// The place of the first plug of that name.
fn plug_place<L: Logic>(plugs: &[Plug<L>], name: &Line) -> Option<usize>
    ensures { result ≡ plug_place name.now plugs.now }
{
    for (k, plug) in plugs.iter().enumerate() {
        if *name == plug.head.name {
            return Some(k);
        }
    }
    None
}

/// Takes a plug of that name out of those that are left.
fn take_named<L: Logic>(plugs: &mut Vec<Plug<L>>, name: &Line) -> Plug<L>
    requires { is_named name.now (names_of plugs.old.items) ≡ true }
    ensures { IsTaken name.now plugs.old.items result plugs.new.items }
{
    match plug_place(plugs, name) {
        Some(place) => plugs.remove(place),
        None => unreachable!(),
    }
}

/// What a node of this kind is handed out of the plugs that are left.
fn hand<L: Logic>(kind: &Kind, plugs: &mut Vec<Plug<L>>) -> Option<Plug<L>>
    requires { unknown_plug_at (names_of plugs.old.items) (plug_of kind.now) ≡ None }
    ensures { IsHandedPlug (plug_of kind.now) plugs.old.items result plugs.new.items }
{
    match plug_of(kind) {
        Some(name) => Some(take_named(plugs, name)),
        None => None,
    }
}

/// What a node of this kind is handed of what the caller made.
fn hand_guest<L: Logic, H: Handlers>(
    kind: &Kind,
    plugs: &mut Vec<Plug<L>>,
    customs: &mut Vec<Custom<H>>,
) -> Option<Guest<L, H>>
    requires plugs { unknown_plug_at (names_of plugs.old.items) (plug_of kind.now) ≡ None }
    requires customs { unknown_plug_at (custom_names customs.old.items) (custom_of kind.now) ≡ None }
    ensures { IsHandedGuest kind.now plugs.old.items customs.old.items result plugs.new.items customs.new.items }
{
    match hand(kind, plugs) {
        Some(plug) => Some(Guest::Plug(plug)),
        None => match hand_custom(kind, customs) {
            Some(custom) => Some(Guest::Custom(custom)),
            None => None,
        },
    }
}

// Choice: docs/DECISIONS.md#plugs-are-handed-out
/// Hands each node that names a plug or a custom stage that one, in the order of nodes; what no node names is dropped.
pub fn hand_out<L: Logic, H: Handlers, B: PlugBook>(
    alloc: Global,
    nodes: &[Node],
    plugs: Vec<Plug<L>>,
    customs: Vec<Custom<H>>,
) -> Result<Vec<Option<Guest<L, H>>>, NoMemory>
    requires has { (wires : List WireDecl) × HasGuests (handed_heads plugs.items customs.items) wires nodes.now }
    requires keep { All (GivesAsListed L.gives B.lists) plugs.items }
    requires told { All (TellsAsListed H.tells B.lists) customs.items }
    ensures guests { IfOk result (λ handed. AreGuests L.gives H.tells B.lists (map (λ n. n.kind) nodes.now) handed.items) }
    ensures ports { IfOk result (λ handed. (wires : List WireDecl) → HasGuests (handed_heads plugs.items customs.items) wires nodes.now
        → HaveUsedPorts wires nodes.now handed.items) }
    ensures types { IfOk result (λ handed. map guest_types handed.items ≡ types_by_heads (handed_heads plugs.items customs.items) nodes.now) }
{
    let mut left = plugs;
    let mut unhired = customs;
    let mut handed = Vec::new(alloc);
    for node in nodes {
        handed.push(hand_guest(&node.kind, &mut left, &mut unhired))?;
    }
    Ok(handed)
}
