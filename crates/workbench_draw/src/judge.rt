// Whether a text says a blueprint that can be run.
ghost use Rattle.std.specs.Prelude.{◌≡◌, ◌∷◌, [], IfOk, IfErr, map};
ghost use Rattle.blue_check.specs.Checked.{checked_blueprint};
ghost use Rattle.blue_modules.specs.Text.{plain_text};
ghost use Rattle.blue_check.specs.Meaning.{Denotes};
ghost use Rattle.blue_lang.specs.Texts.{Says};
ghost use Rattle.stream_model.specs.Heads.{shipped_heads, shipped_shapes};
ghost use Rattle.stream_model.specs.Known.{head_shape};
ghost use Rattle.workbench_draw.specs.Judging.{IsFitText, IsUnready};

use blue_check::check::{CheckEnd, check};
use blue_check::checked::Checked;
use blue_check::fault::CheckFault;
use blue_check::flatten::flatten;
use blue_lang::parse::{ParseEnd, parse};
use blue_modules::text::BlueText;
use blue_words::fault::BlueFault;
use elem_core::line::Line;
use elem_core::why::NoMemory;
use std::alloc::Global;
use stream_model::blueprint::Blueprint;
use stream_model::head::{CustomHead, PlugHead};
use stream_model::heads::{shipped_customs, shipped_heads};

/// Why a text says no blueprint that can be run.
#[derive(Drop)]
pub enum Unready {
    /// The text has a fault; it is the first.
    Refused(BlueFault),
    /// The text or its blueprint breaks a rule; it is the first, at its least place.
    Unfit(CheckFault),
    /// Memory was refused.
    NoMemory,
}

/// The files that are taken: the blueprint's own.
fn taken_of(alloc: Global, file: &Line) -> Result<Vec<Line>, NoMemory>
    ensures { IfOk result (λ taken. taken.items ≡ file.now ∷ []) }
{
    let mut taken = Vec::new(alloc);
    taken.push(file.copy(alloc)?)?;
    Ok(taken)
}

/// Checks the blueprint of a text.
fn check_said(
    alloc: Global,
    text: &[u8],
    plugs: &[PlugHead],
    customs: &[CustomHead],
    taken: &[Line],
    file: &Line,
    b: Blueprint,
) -> Result<Checked, Unready>
    requires says { Denotes (Says text.now) b }
    requires plugs { plugs.now ≡ shipped_heads }
    requires customs { map head_shape customs.now ≡ shipped_shapes }
    requires taken { taken.now ≡ file.now ∷ [] }
    ensures fit { IfOk result (λ c. IsFitText text.now file.now (checked_blueprint c)) }
    ensures unready { IfErr result (IsUnready text.now file.now) }
{
    match check(alloc, b, plugs, customs, taken) {
        Ok(checked) => Ok(checked),
        Err(CheckEnd::Fault(fault)) => Err(Unready::Unfit(fault)),
        Err(CheckEnd::NoMemory) => Err(Unready::NoMemory),
    }
}

/// The blueprint of what a text says.
#[tactic(auto, using(crate::proofs::Judged::denotes))]
fn flat_said(alloc: Global, text: &[u8], file: &Line, said: &BlueText) -> Result<Blueprint, Unready>
    requires { Says text.now (plain_text said.now) }
    ensures denotes { IfOk result (λ b. Denotes (Says text.now) b) }
    ensures unready { IfErr result (IsUnready text.now file.now) }
{
    match flatten(alloc, said) {
        Ok(b) => Ok(b),
        Err(CheckEnd::Fault(fault)) => Err(Unready::Unfit(fault)),
        Err(CheckEnd::NoMemory) => Err(Unready::NoMemory),
    }
}

/// The blueprint of the text of that name's file, or why there is none: the first fault of the text, or the first rule on modules
/// that it breaks. Want of memory may come in the place of each.
pub fn blueprint_of(alloc: Global, text: &[u8], file: &Line) -> Result<Blueprint, Unready>
    ensures denotes { IfOk result (λ b. Denotes (Says text.now) b) }
    ensures unready { IfErr result (IsUnready text.now file.now) }
{
    match parse(alloc, text) {
        Ok(said) => flat_said(alloc, text, file, &said),
        Err(ParseEnd::Fault(fault)) => Err(Unready::Refused(fault)),
        Err(ParseEnd::NoMemory) => Err(Unready::NoMemory),
    }
}

/// The checked blueprint of the text of that name's file, with the plugs and the custom stages of `streams`, or why there is none: the first fault of the
/// text, or the first rule that it or its blueprint breaks. Want of memory may come in the place of each.
pub fn judge_text(alloc: Global, text: &[u8], file: &Line) -> Result<Checked, Unready>
    ensures fit { IfOk result (λ c. IsFitText text.now file.now (checked_blueprint c)) }
    ensures unready { IfErr result (IsUnready text.now file.now) }
{
    let Ok(taken) = taken_of(alloc, file) else {
        return Err(Unready::NoMemory);
    };
    let Ok(plugs) = shipped_heads(alloc) else {
        return Err(Unready::NoMemory);
    };
    let Ok(customs) = shipped_customs(alloc) else {
        return Err(Unready::NoMemory);
    };
    match blueprint_of(alloc, text, file) {
        Ok(b) => check_said(alloc, text, &plugs, &customs, &taken, file, b),
        Err(why) => Err(why),
    }
}
