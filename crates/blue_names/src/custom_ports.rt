// The ports of a custom stage, which are those of its head.
ghost use Rattle.std.specs.Prelude.{◌≡◌, List, min, length, map};
ghost use Rattle.std.specs.Option.{option_map};
ghost use Rattle.stream_model.specs.Known.{head_shape};
ghost use Rattle.blue_names.specs.CustomPorts.{named, custom_of, custom_named, custom_head, head_ports, kind_inputs, kind_outputs, is_headless, head_fits, MOST_PORTS};

use crate::ports::{input_ports, output_ports};
use elem_core::elem_type::ElemType;
use elem_core::line::Line;
use stream_model::head::CustomHead;
use stream_model::kind::Kind;
use stream_model::known::Heads;

/// The custom stage that a node names.
pub fn custom_of(kind: &Kind) -> Option<&Line>
    ensures { option_map (λ l. l.now) result ≡ custom_of kind.now }
{
    match kind {
        Kind::Custom(name) => Some(name),
        _ => None,
    }
}

/// The head of that name.
pub fn custom_named<'a>(customs: &'a [CustomHead], name: &Line) -> Option<&'a CustomHead>
    ensures { option_map (λ h. head_shape h.now) result ≡ named (λ c. c.name) name.now (map head_shape customs.now) }
{
    for custom in customs {
        if *name == custom.name {
            return Some(custom);
        }
    }
    None
}

/// The head of the custom stage that a node of this kind names, where it is handed in.
pub fn custom_head<'a>(heads: &Heads<'a>, kind: &Kind) -> Option<&'a CustomHead>
    ensures { option_map (λ h. head_shape h.now) result ≡ custom_head heads.now kind.now }
{
    match custom_of(kind) {
        Some(name) => custom_named(heads.customs(), name),
        None => None,
    }
}

// How many they are, as far as they are counted.
fn counted(types: &Vec<ElemType>) -> u32
    ensures { result ≡ min (length types.now.items) MOST_PORTS }
{
    match u32::try_from(types.len()) {
        Ok(n) => n,
        Err(_) => u32::MAX,
    }
}

/// How many inputs and how many outputs a head has.
pub fn head_ports(head: Option<&CustomHead>) -> (u32, u32)
    ensures { result ≡ head_ports (option_map (λ h. head_shape h.now) head.entry) }
{
    match head {
        Some(head) => (counted(&head.inputs), counted(&head.outputs)),
        None => (0, 0),
    }
}

/// How many inputs a node of this kind has.
pub fn kind_inputs(heads: &Heads<'_>, kind: &Kind) -> u32
    ensures { result ≡ kind_inputs heads.now kind.now }
{
    input_ports(head_ports(custom_head(heads, kind)), kind)
}

/// How many outputs a node of this kind has.
pub fn kind_outputs(heads: &Heads<'_>, kind: &Kind) -> u32
    ensures { result ≡ kind_outputs heads.now kind.now }
{
    output_ports(head_ports(custom_head(heads, kind)), kind)
}

/// Whether it names a custom stage that is not handed in.
pub fn is_headless(heads: &Heads<'_>, kind: &Kind) -> bool
    ensures { result ≡ is_headless heads.now kind.now }
{
    match custom_of(kind) {
        Some(_) => custom_head(heads, kind).is_none(),
        None => false,
    }
}

/// Whether a head has at most eight inputs and at most eight outputs, and a port.
pub fn head_fits(head: Option<&CustomHead>) -> bool
    ensures { result ≡ head_fits (option_map (λ h. head_shape h.now) head.entry) }
{
    match head {
        Some(head) => {
            let (inputs, outputs) = (head.inputs.len(), head.outputs.len());
            inputs <= 8 && outputs <= 8 && !(inputs == 0 && outputs == 0)
        }
        None => true,
    }
}
