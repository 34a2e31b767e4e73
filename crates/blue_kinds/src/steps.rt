// The steps of a chain.
ghost use Rattle.std.specs.Prelude.{◌≡◌, IfOk};
ghost use Rattle.blue_words.specs.Reading.{Reads, ReadsAs, at_map};
ghost use Rattle.blue_kinds.specs.Steps.{read_step, read_chain, pushed};

use crate::decider::{may_decide, read_decider};
use crate::kinds::read_linear;
use blue_modules::text::StepText;
use blue_words::fault::{FormEnd, PlaceValue, Version};
use blue_words::places::both;
use blue_words::words::Words;
use elem_core::why::NoMemory;
use std::alloc::Global;

// Choices: docs/DECISIONS.md#limits-last, docs/DECISIONS.md#steps-are-bounded
/// The steps of a chain that the words say in a text of that version, parted by `|`, up to their end.
pub fn read_steps(
    alloc: Global,
    version: Version,
    words: &mut Words,
) -> Result<PlaceValue<Vec<StepText>>, FormEnd>
    ensures { ReadsAs (λ v. v.items) result (read_chain version words.old) words.new }
{
    let mut steps = Ok(Vec::new(alloc));
    loop {
        let step = match read_step(alloc, version, words) {
            Ok(step) => step,
            Err(end) => return Err(end),
        };
        match with_step(steps, step) {
            Ok(more) => steps = more,
            Err(_) => return Err(FormEnd::NoMemory),
        }
        if words.is_empty() {
            return Ok(steps);
        }
        if !words.skip(b"|") {
            return Err(FormEnd::BadLine);
        }
    }
}

// One stage of a chain, with its decider.
fn read_step(
    alloc: Global,
    version: Version,
    words: &mut Words,
) -> Result<PlaceValue<StepText>, FormEnd>
    ensures { Reads result (read_step version words.old) words.new }
{
    let Some(word) = words.next() else {
        return Err(FormEnd::BadLine);
    };
    let kind = read_linear(alloc, word, words)?;
    let decider = read_decider(version, may_decide(word), words)?;
    Ok(both(kind, decider).map(|(kind, decider)| StepText { kind, decider }))
}

// The steps and one more behind them, or what is wrong with the first that has a fault.
fn with_step(
    steps: PlaceValue<Vec<StepText>>,
    step: PlaceValue<StepText>,
) -> Result<PlaceValue<Vec<StepText>>, NoMemory>
    ensures { IfOk result (λ r. at_map (λ v. v.items) r ≡ pushed (at_map (λ v. v.items) steps) step) }
{
    match both(steps, step) {
        Ok((mut steps, step)) => {
            steps.push(step)?;
            Ok(Ok(steps))
        }
        Err(kind) => Ok(Err(kind)),
    }
}
