// What comes of a type at a stage.
ghost use Rattle.std.specs.Prelude.{◌≡◌, IfOk, unwrap_or, Some, [], not, nat_le, slice_get};
ghost use Rattle.std.specs.Option.{option_map, option_or};
ghost use Rattle.elem_core.specs.Sort.{nesting};
ghost use Rattle.blue_names.specs.CustomPorts.{custom_named, custom_head, input_type, outputs_type};
ghost use Rattle.blue_names.specs.First.{first_from, when};
ghost use Rattle.blue_names.specs.declared.typed.TheConstants.{MAX_NESTING};
ghost use Rattle.blue_names.specs.FnTypes.{map_want, map_gives, pred_want};
ghost use Rattle.blue_names.specs.StageTypes.{limited, clash_or, base_type, source_type, stage_want, stage_gives, fixed_type, step_typed, chain_typed, keyed, parted, stage_typed, port_typed, plug_want, plug_gives, plug_fixed, plug_named, chain_named};
ghost use Rattle.blue_names.specs.declared.typed.Typed.{Typed as Coming};
ghost use Rattle.blue_types.specs.Library.{IsKnown};

use crate::functions::{
    expand_fixed, expand_gives, expand_want, fold_fixed, fold_gives, fold_want, map_fixed,
    map_gives, map_want, pred_want, reduce_fixed, reduce_gives, reduce_want,
};
use crate::library::{Library, chain_named, plug_named};
use crate::sorts::{num_type, seq_of, suits, text_type};
use blue_names::custom_ports::{custom_head, custom_named};
use blue_names::typed::{MAX_NESTING, Typed};
use blue_names::want::Want;
use elem_core::elem_type::ElemType;
use elem_core::line::Line;
use elem_core::why::NoMemory;
use std::alloc::Global;
use stream_model::blueprint::Step;
use stream_model::kind::{Base, Kind};

/// A type, where it does not nest too deep.
pub fn limited(t: ElemType) -> Typed
    ensures { result ≡ limited t }
{
    if t.nests_at_most(MAX_NESTING) {
        Typed::Gives(t)
    } else {
        Typed::TooDeep
    }
}

/// The clash of a type that is not wanted.
fn clash(alloc: Global, want: Option<Want>, t: &ElemType) -> Result<Option<Typed>, NoMemory>
    ensures { (r : Coming) → IfOk result (λ o. unwrap_or o r ≡ clash_or want t.now r) }
{
    match want {
        None => Ok(None),
        Some(want) => {
            if suits(&want, t) {
                Ok(None)
            } else {
                Ok(Some(Typed::Clashes(t.copy(alloc)?, want)))
            }
        }
    }
}

/// The type of a source that gives no elements.
fn base_type(base: Base) -> ElemType
    ensures { result ≡ base_type base }
{
    match base {
        Base::Num => num_type(),
        Base::Text => text_type(),
    }
}

/// The type of a source.
pub fn source_type(kind: &Kind) -> Option<ElemType>
    ensures { result ≡ source_type kind.now }
{
    match kind {
        Kind::Lines(_) => Some(text_type()),
        Kind::Range(_, _) => Some(num_type()),
        Kind::Empty(base) => Some(base_type(*base)),
        Kind::Failed(base) => Some(base_type(*base)),
        _ => None,
    }
}

/// What a plug wants.
fn plug_want(alloc: Global, library: &Library<'_>, name: &Line) -> Result<Option<Want>, NoMemory>
    requires { IsKnown library.now }
    ensures { IfOk result (λ w. w ≡ plug_want (plug_named name.now library.now.heads.now.plugs)) }
{
    match plug_named(library, name) {
        Some(plug) => Ok(Some(Want::Is(plug.input.copy(alloc)?))),
        None => Ok(None),
    }
}

/// What a plug gives.
fn plug_gives(
    alloc: Global,
    library: &Library<'_>,
    name: &Line,
    t: &ElemType,
) -> Result<ElemType, NoMemory>
    requires { IsKnown library.now }
    ensures { IfOk result (λ u. u ≡ plug_gives (plug_named name.now library.now.heads.now.plugs) t.now) }
{
    match plug_named(library, name) {
        Some(plug) => plug.output.copy(alloc),
        None => t.copy(alloc),
    }
}

/// What a plug gives whatever it takes.
fn plug_fixed(
    alloc: Global,
    library: &Library<'_>,
    name: &Line,
) -> Result<Option<ElemType>, NoMemory>
    requires { IsKnown library.now }
    ensures { IfOk result (λ o. o ≡ plug_fixed (plug_named name.now library.now.heads.now.plugs)) }
{
    match plug_named(library, name) {
        Some(plug) => Ok(Some(plug.output.copy(alloc)?)),
        None => Ok(None),
    }
}

/// What stands for the types of the outputs of the custom stage of that name.
fn outputs_type(
    alloc: Global,
    library: &Library<'_>,
    name: &Line,
) -> Result<Option<ElemType>, NoMemory>
    ensures { IfOk result (λ o. o ≡ outputs_type (custom_named library.now.heads.now name.now)) }
{
    match custom_named(library.heads.customs(), name) {
        Some(head) => one_of_types(alloc, &head.outputs),
        None => Ok(None),
    }
}

/// Of these types the first that nests too deep, and else the first.
fn one_of_types(alloc: Global, types: &[ElemType]) -> Result<Option<ElemType>, NoMemory>
    ensures { IfOk result (λ o. o ≡ option_or (first_from (λ _ t. when (not (nat_le (nesting t) MAX_NESTING)) t) 0 types.now) (slice_get types.now 0)) }
{
    for t in types {
        if !t.nests_at_most(MAX_NESTING) {
            return Ok(Some(t.copy(alloc)?));
        }
    }
    match types.first() {
        Some(t) => Ok(Some(t.copy(alloc)?)),
        None => Ok(None),
    }
}

/// What the function of a stage wants; none where it takes every type.
fn stage_want(alloc: Global, library: &Library<'_>, kind: &Kind) -> Result<Option<Want>, NoMemory>
    requires { IsKnown library.now }
    ensures { IfOk result (λ w. w ≡ stage_want library.now.heads.now kind.now) }
{
    match kind {
        Kind::Map(function) => map_want(alloc, function),
        Kind::Filter(p) => Ok(Some(pred_want(p))),
        Kind::FilterNot(p) => Ok(Some(pred_want(p))),
        Kind::TakeWhile(p) => Ok(Some(pred_want(p))),
        Kind::DropWhile(p) => Ok(Some(pred_want(p))),
        Kind::MapConcat(expand) => Ok(expand_want(*expand)),
        Kind::Fold(op) => Ok(fold_want(*op)),
        Kind::Scan(op) => Ok(fold_want(*op)),
        Kind::Reduce(op) => Ok(reduce_want(*op)),
        Kind::RecoverNum(_) => Ok(Some(Want::Is(num_type()))),
        Kind::RecoverText(_) => Ok(Some(Want::Is(text_type()))),
        Kind::Plug(name) => plug_want(alloc, library, name),
        Kind::Unzip => Ok(Some(Want::AnyPair)),
        _ => Ok(None),
    }
}

/// What a stage gives for a type that it takes.
fn stage_gives(
    alloc: Global,
    library: &Library<'_>,
    kind: &Kind,
    t: &ElemType,
) -> Result<ElemType, NoMemory>
    requires { IsKnown library.now }
    ensures { IfOk result (λ u. u ≡ stage_gives library.now.heads.now kind.now t.now) }
{
    match kind {
        Kind::Map(function) => map_gives(alloc, function, t),
        Kind::Grouped(_) => seq_of(alloc, t.copy(alloc)?),
        Kind::MapConcat(expand) => expand_gives(alloc, *expand, t),
        Kind::Fold(op) => fold_gives(alloc, *op, t),
        Kind::Scan(op) => fold_gives(alloc, *op, t),
        Kind::Reduce(op) => reduce_gives(alloc, *op, t),
        Kind::RecoverNum(_) => Ok(num_type()),
        Kind::RecoverText(_) => Ok(text_type()),
        Kind::Plug(name) => plug_gives(alloc, library, name, t),
        _ => t.copy(alloc),
    }
}

/// What a kind gives whatever it takes.
pub fn fixed_type(
    alloc: Global,
    library: &Library<'_>,
    kind: &Kind,
) -> Result<Option<ElemType>, NoMemory>
    requires { IsKnown library.now }
    ensures { IfOk result (λ o. o ≡ fixed_type library.now.heads.now kind.now) }
{
    match kind {
        Kind::Map(function) => Ok(map_fixed(function)),
        Kind::MapConcat(expand) => Ok(expand_fixed(*expand)),
        Kind::Fold(op) => Ok(fold_fixed(*op)),
        Kind::Scan(op) => Ok(fold_fixed(*op)),
        Kind::Reduce(op) => Ok(reduce_fixed(*op)),
        Kind::RecoverNum(_) => Ok(Some(num_type())),
        Kind::RecoverText(_) => Ok(Some(text_type())),
        Kind::Plug(name) => plug_fixed(alloc, library, name),
        Kind::Custom(name) => outputs_type(alloc, library, name),
        _ => Ok(None),
    }
}

// Choice: docs/DECISIONS.md#steps-of-no-stage
/// What comes of a type at a stage by its own function.
fn step_typed(
    alloc: Global,
    library: &Library<'_>,
    kind: &Kind,
    t: &ElemType,
) -> Result<Typed, NoMemory>
    requires { IsKnown library.now }
    ensures { IfOk result (λ r. r ≡ step_typed library.now.heads.now kind.now t.now) }
{
    match clash(alloc, stage_want(alloc, library, kind)?, t)? {
        Some(clash) => Ok(clash),
        None => Ok(limited(stage_gives(alloc, library, kind, t)?)),
    }
}

/// What comes of a type at the steps of a chain, one after another.
fn chain_typed(
    alloc: Global,
    library: &Library<'_>,
    steps: &[Step],
    t: &ElemType,
) -> Result<Typed, NoMemory>
    requires { IsKnown library.now }
    ensures { IfOk result (λ r. r ≡ chain_typed library.now.heads.now steps.now t.now) }
{
    let mut coming = t.copy(alloc)?;
    for step in steps {
        match step_typed(alloc, library, &step.kind, &coming)? {
            Typed::Gives(next) => coming = next,
            Typed::Clashes(left, want) => return Ok(Typed::Clashes(left, want)),
            Typed::TooDeep => return Ok(Typed::TooDeep),
        }
    }
    Ok(Typed::Gives(coming))
}

/// What comes of a chain's type, beside a key of that type.
fn keyed(key: &ElemType, typed: Typed) -> Typed
    ensures { result ≡ keyed (record { plugs = []; customs = [] }) key.now typed }
{
    match typed {
        Typed::Gives(t) => {
            if key.nests_at_most(MAX_NESTING) {
                Typed::Gives(t)
            } else {
                Typed::TooDeep
            }
        }
        other => other,
    }
}

/// What comes of a type where the part has that type.
fn parted(alloc: Global, part: ElemType, t: &ElemType) -> Result<Typed, NoMemory>
    ensures { IfOk result (λ r. r ≡ parted (record { plugs = []; customs = [] }) part t.now) }
{
    if num_type() == part {
        Ok(Typed::Gives(t.copy(alloc)?))
    } else {
        Ok(Typed::Clashes(part, Want::Is(num_type())))
    }
}

/// What comes of a type at a node with one input.
pub fn stage_typed(
    alloc: Global,
    library: &Library<'_>,
    kind: &Kind,
    t: &ElemType,
) -> Result<Typed, NoMemory>
    requires { IsKnown library.now }
    ensures { IfOk result (λ r. r ≡ stage_typed library.now.heads.now library.now.chains.now kind.now t.now) }
{
    match kind {
        Kind::GroupBy(_, function, name) => match clash(alloc, map_want(alloc, function)?, t)? {
            Some(clash) => Ok(clash),
            None => {
                let key = map_gives(alloc, function, t)?;
                let typed = chain_typed(alloc, library, chain_named(library, name), t)?;
                Ok(keyed(&key, typed))
            }
        },
        Kind::SplitWhen(predicate, name, _) => split_typed(
            alloc,
            library,
            pred_want(predicate),
            name,
            t,
        ),
        Kind::SplitAfter(predicate, name, _) => split_typed(
            alloc,
            library,
            pred_want(predicate),
            name,
            t,
        ),
        Kind::Partition(_, function) => match clash(alloc, map_want(alloc, function)?, t)? {
            Some(clash) => Ok(clash),
            None => parted(alloc, map_gives(alloc, function, t)?, t),
        },
        _ => step_typed(alloc, library, kind, t),
    }
}

/// What comes of a type at a split with such a predicate.
fn split_typed(
    alloc: Global,
    library: &Library<'_>,
    want: Want,
    name: &Line,
    t: &ElemType,
) -> Result<Typed, NoMemory>
    requires { IsKnown library.now }
    ensures { IfOk result (λ r. r ≡ clash_or (Some want) t.now (chain_typed library.now.heads.now (chain_named name.now library.now.chains.now) t.now)) }
{
    match clash(alloc, Some(want), t)? {
        Some(clash) => Ok(clash),
        None => chain_typed(alloc, library, chain_named(library, name), t),
    }
}

/// The type that an input of a custom stage wants; none at any other kind.
fn wanted_at(
    alloc: Global,
    library: &Library<'_>,
    port: u32,
    kind: &Kind,
) -> Result<Option<Want>, NoMemory>
    ensures { IfOk result (λ w. w ≡ option_map Want.Is (input_type (custom_head library.now.heads.now kind.now) port)) }
{
    match custom_head(library.heads, kind) {
        Some(head) => match head.inputs.get(port as usize) {
            Some(t) => Ok(Some(Want::Is(t.copy(alloc)?))),
            None => Ok(None),
        },
        None => Ok(None),
    }
}

/// What comes of a type at this input of a node.
pub fn port_typed(
    alloc: Global,
    library: &Library<'_>,
    port: u32,
    kind: &Kind,
    t: &ElemType,
) -> Result<Typed, NoMemory>
    requires { IsKnown library.now }
    ensures { IfOk result (λ r. r ≡ port_typed library.now.heads.now library.now.chains.now port kind.now t.now) }
{
    match clash(alloc, wanted_at(alloc, library, port, kind)?, t)? {
        Some(clash) => Ok(clash),
        None => stage_typed(alloc, library, kind, t),
    }
}
