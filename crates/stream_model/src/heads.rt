// The heads of the plugs and of the custom stages that the program ships. Whoever runs blueprints and whoever only looks at them knows the same.
ghost use Rattle.std.specs.Prelude.{◌≡◌, ◌≤◌, IfOk, IsTrue, length, map, replicate};
ghost use Rattle.elem_core.specs.Sort.{text_type};
ghost use Rattle.elem_core.specs.Line.{has_no_lf};
ghost use Rattle.elem_core.specs.TypeForm.{sort_of};
ghost use Rattle.stream_model.specs.Heads.{dedup_head, pairsum_head, shipped_heads, alternate_shape, rude_shape, shipped_shapes};
ghost use Rattle.stream_model.specs.Known.{head_shape};

use crate::head::{CustomHead, PlugHead};
use elem_core::elem_type::{ElemType, TypeForm};
use elem_core::line::Line;
use elem_core::why::NoMemory;
use std::alloc::Global;

/// The head of a plug of this name.
fn head_of(
    alloc: Global,
    name: &str,
    input: TypeForm,
    output: TypeForm,
) -> Result<PlugHead, NoMemory>
    requires short { length name.now ≤ 65536 }
    requires no_lf { IsTrue (has_no_lf name.now) }
    ensures name { IfOk result (λ h. h.name ≡ name.now) }
    ensures input { IfOk result (λ h. h.input ≡ sort_of input) }
    ensures output { IfOk result (λ h. h.output ≡ sort_of output) }
{
    let mut bytes = Vec::new(alloc);
    bytes.extend_from_slice(name.as_bytes())?;
    Ok(PlugHead {
        name: Line::of(bytes),
        input: ElemType::of(input),
        output: ElemType::of(output),
    })
}

/// The head of `dedup`, which takes and gives texts.
pub fn dedup_head(alloc: Global) -> Result<PlugHead, NoMemory>
    ensures { IfOk result (λ h. h ≡ dedup_head) }
{
    head_of(alloc, "dedup", TypeForm::Text, TypeForm::Text)
}

/// The head of `pairsum`, which takes and gives numbers.
pub fn pairsum_head(alloc: Global) -> Result<PlugHead, NoMemory>
    ensures { IfOk result (λ h. h ≡ pairsum_head) }
{
    head_of(alloc, "pairsum", TypeForm::Num, TypeForm::Num)
}

// Choice: docs/DECISIONS.md#heads-below-both
/// The heads of the plugs that the program ships, in the order in which it hands them in.
pub fn shipped_heads(alloc: Global) -> Result<Vec<PlugHead>, NoMemory>
    ensures { IfOk result (λ heads. heads.items ≡ shipped_heads) }
{
    let mut heads = Vec::new(alloc);
    heads.push(dedup_head(alloc)?)?;
    heads.push(pairsum_head(alloc)?)?;
    Ok(heads)
}

/// So many types of texts.
fn texts(alloc: Global, many: usize) -> Result<Vec<ElemType>, NoMemory>
    ensures { IfOk result (λ v. v.items ≡ replicate many text_type) }
{
    let mut types = Vec::new(alloc);
    for _i in 0..many {
        types.push(ElemType::of(TypeForm::Text))?;
    }
    Ok(types)
}

/// The head of a custom stage of this name that takes and gives texts.
fn custom_of(
    alloc: Global,
    name: &str,
    inputs: usize,
    outputs: usize,
) -> Result<CustomHead, NoMemory>
    requires short { length name.now ≤ 65536 }
    requires no_lf { IsTrue (has_no_lf name.now) }
    ensures name { IfOk result (λ h. h.name ≡ name.now) }
    ensures inputs { IfOk result (λ h. h.inputs.items ≡ replicate inputs text_type) }
    ensures outputs { IfOk result (λ h. h.outputs.items ≡ replicate outputs text_type) }
{
    let mut bytes = Vec::new(alloc);
    bytes.extend_from_slice(name.as_bytes())?;
    Ok(CustomHead {
        name: Line::of(bytes),
        inputs: texts(alloc, inputs)?,
        outputs: texts(alloc, outputs)?,
    })
}

/// The head of `alternate`: one input and two outputs, all of texts.
pub fn alternate_head(alloc: Global) -> Result<CustomHead, NoMemory>
    ensures { IfOk result (λ h. head_shape h ≡ alternate_shape) }
{
    custom_of(alloc, "alternate", 1, 2)
}

/// The head of `rude`: one input and one output, both of texts.
pub fn rude_head(alloc: Global) -> Result<CustomHead, NoMemory>
    ensures { IfOk result (λ h. head_shape h ≡ rude_shape) }
{
    custom_of(alloc, "rude", 1, 1)
}

/// The heads of the custom stages that the program ships, in the order in which it hands them in.
pub fn shipped_customs(alloc: Global) -> Result<Vec<CustomHead>, NoMemory>
    ensures { IfOk result (λ heads. map head_shape heads.items ≡ shipped_shapes) }
{
    let mut heads = Vec::new(alloc);
    heads.push(alternate_head(alloc)?)?;
    heads.push(rude_head(alloc)?)?;
    Ok(heads)
}
