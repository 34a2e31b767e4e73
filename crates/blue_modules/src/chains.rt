// Switches and chains of a blueprint, of what a text says of them.
ghost use Rattle.std.specs.Prelude.{◌≡◌, IfOk, map};
ghost use Rattle.blue_modules.specs.Plain.{plain_chain};
ghost use Rattle.blue_modules.specs.Text.{plain_chain_text};
ghost use Rattle.blue_modules.specs.Flatten.{flat_step, flat_chain};

use crate::copies::{copy_kind, takes_decider};
use crate::parts::decider_within;
use crate::text::{ChainText, StepText};
use elem_core::line::Line;
use elem_core::why::{Decider, NoMemory};
use std::alloc::Global;
use stream_model::blueprint::{ChainDecl, Step};

/// Equal lines.
pub fn copy_lines(alloc: Global, lines: &[Line]) -> Result<Vec<Line>, NoMemory>
    ensures { IfOk result (λ v. v.items ≡ lines.now) }
{
    let mut copies = Vec::new(alloc);
    for line in lines {
        let copy = line.copy(alloc)?;
        copies.push(copy)?;
    }
    Ok(copies)
}

/// A step, with the decider that is set around it where it may have one and has none of its own.
fn flat_step(alloc: Global, around: Decider, step: &StepText) -> Result<Step, NoMemory>
    ensures { IfOk result (λ s. s ≡ flat_step around step.now) }
{
    let decider = decider_within(takes_decider(&step.kind), step.decider, around);
    Ok(Step {
        kind: copy_kind(alloc, &step.kind)?,
        decider,
    })
}

fn flat_steps(alloc: Global, around: Decider, steps: &[StepText]) -> Result<Vec<Step>, NoMemory>
    ensures { IfOk result (λ v. v.items ≡ map (flat_step around) steps.now) }
{
    let mut flat = Vec::new(alloc);
    for step in steps {
        let step = flat_step(alloc, around, step)?;
        flat.push(step)?;
    }
    Ok(flat)
}

/// A chain, whose steps take the decider that is set around the text.
fn flat_chain(alloc: Global, around: Decider, chain: &ChainText) -> Result<ChainDecl, NoMemory>
    ensures { IfOk result (λ c. plain_chain c ≡ flat_chain around (plain_chain_text chain.now)) }
{
    let name = chain.name.copy(alloc)?;
    let steps = flat_steps(alloc, around, &chain.steps)?;
    Ok(ChainDecl { name, steps })
}

/// The chains of a text.
pub fn flat_chains(
    alloc: Global,
    around: Decider,
    chains: &[ChainText],
) -> Result<Vec<ChainDecl>, NoMemory>
    ensures { IfOk result (λ v. map plain_chain v.items ≡ map (flat_chain around) (map plain_chain_text chains.now)) }
{
    let mut flat = Vec::new(alloc);
    for chain in chains {
        let chain = flat_chain(alloc, around, chain)?;
        flat.push(chain)?;
    }
    Ok(flat)
}
