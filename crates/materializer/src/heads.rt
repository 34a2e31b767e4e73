// What blueprints have to know of what a caller hands in.
ghost use Rattle.std.specs.Prelude.{◌≡◌, IfOk, map};
ghost use Rattle.stream_model.specs.Known.{head_shape};

use elem_core::elem_type::ElemType;
use elem_core::why::NoMemory;
use graph_stage::custom::Custom;
use graph_stage::handlers::Handlers;
use plug_logic::logic::Logic;
use plug_logic::plug::Plug;
use std::alloc::Global;
use stream_model::head::{CustomHead, PlugHead};

/// What blueprints have to know of these plugs, in their order.
pub fn heads_of<L: Logic>(alloc: Global, plugs: &[Plug<L>]) -> Result<Vec<PlugHead>, NoMemory>
    ensures { IfOk result (λ heads. heads.items ≡ map (λ p. p.head) plugs.now) }
{
    let mut heads = Vec::new(alloc);
    for plug in plugs {
        heads.push(PlugHead {
            name: plug.head.name.copy(alloc)?,
            input: plug.head.input.copy(alloc)?,
            output: plug.head.output.copy(alloc)?,
        })?;
    }
    Ok(heads)
}

/// The same types.
fn copies_of(alloc: Global, types: &[ElemType]) -> Result<Vec<ElemType>, NoMemory>
    ensures { IfOk result (λ copies. copies.items ≡ types.now) }
{
    let mut copies = Vec::new(alloc);
    for t in types {
        copies.push(t.copy(alloc)?)?;
    }
    Ok(copies)
}

/// What blueprints have to know of these custom stages, in their order.
pub fn custom_heads_of<H: Handlers>(
    alloc: Global,
    customs: &[Custom<H>],
) -> Result<Vec<CustomHead>, NoMemory>
    ensures { IfOk result (λ heads. map head_shape heads.items ≡ map (λ c. head_shape c.head) customs.now) }
{
    let mut heads = Vec::new(alloc);
    for custom in customs {
        heads.push(CustomHead {
            name: custom.head.name.copy(alloc)?,
            inputs: copies_of(alloc, &custom.head.inputs)?,
            outputs: copies_of(alloc, &custom.head.outputs)?,
        })?;
    }
    Ok(heads)
}
