// Which node is handed which custom stage.
ghost use Rattle.std.specs.Prelude.{◌≡◌, true, None};
ghost use Rattle.blue_names.specs.Names.{is_named, unknown_plug_at};
ghost use Rattle.blue_names.specs.CustomPorts.{custom_of};
ghost use Rattle.materializer.specs.HandedCustoms.{custom_names, custom_place, IsTakenCustom, IsHandedCustom};

use blue_names::custom_ports::custom_of;
use elem_core::line::Line;
use graph_stage::custom::Custom;
use graph_stage::handlers::Handlers;
use stream_model::kind::Kind;

/// The place of the first custom stage of that name.
fn custom_place<H: Handlers>(customs: &[Custom<H>], name: &Line) -> Option<usize>
    ensures { result ≡ custom_place name.now customs.now }
{
    for (k, custom) in customs.iter().enumerate() {
        if *name == custom.head.name {
            return Some(k);
        }
    }
    None
}

/// Takes a custom stage of that name out of those that are left.
fn take_custom<H: Handlers>(customs: &mut Vec<Custom<H>>, name: &Line) -> Custom<H>
    requires { is_named name.now (custom_names customs.old.items) ≡ true }
    ensures { IsTakenCustom name.now customs.old.items result customs.new.items }
{
    match custom_place(customs, name) {
        Some(place) => customs.remove(place),
        None => unreachable!(),
    }
}

/// What a node of this kind is handed out of the custom stages that are left.
pub(crate) fn hand_custom<H: Handlers>(
    kind: &Kind,
    customs: &mut Vec<Custom<H>>,
) -> Option<Custom<H>>
    requires { unknown_plug_at (custom_names customs.old.items) (custom_of kind.now) ≡ None }
    ensures { IsHandedCustom (custom_of kind.now) customs.old.items result customs.new.items }
{
    match custom_of(kind) {
        Some(name) => Some(take_custom(customs, name)),
        None => None,
    }
}
