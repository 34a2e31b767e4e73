// The blueprint of a text: each instance is replaced by the body of its module.
ghost use Rattle.std.specs.Prelude.{◌≡◌, [], Some, IfOk, Err, MatchResult, map};
ghost use Rattle.blue_modules.specs.Plain.{plain};
ghost use Rattle.blue_modules.specs.Text.{plain_module, plain_text};
ghost use Rattle.blue_modules.specs.declared.fault.ModuleFault.{ModuleFault};
ghost use Rattle.blue_modules.specs.Counts.{AreCounted, counted_modules};
ghost use Rattle.blue_modules.specs.Flatten.{inside, around_text, flat_body, flat_parts, latest_first, part_nodes, part_wires, flat};
ghost use Rattle.blue_modules.specs.Fitness.{rule_fault, IsFlat};

use crate::chains::{copy_lines, flat_chains};
use crate::counts::{Counted, book_of};
use crate::entries::Entries;
use crate::fault::ModuleFault;
use crate::parts::{Around, Parts, inside, put_body};
use crate::rules::rule_fault;
use crate::text::{BlueText, Entry};
use elem_core::why::{Decider, NoMemory};
use std::alloc::Global;
use stream_model::blueprint::Blueprint;
use stream_model::limit::DEFAULT_LANE;

/// Why a text gives no blueprint.
#[derive(Drop)]
pub enum FlatEnd {
    /// It breaks a rule on modules.
    Fault(ModuleFault),
    /// Memory was refused, or a name would be longer than a line.
    NoMemory,
}

/// What is set around the parts of a text's own body.
fn around_of(text: &BlueText) -> Around
    ensures { result ≡ inside text.now.attrs around_text }
{
    let around = Around {
        size: DEFAULT_LANE,
        decider: Decider::Stop,
    };
    inside(text.attrs, around)
}

/// The nodes and wires of a text that breaks no rule on modules.
fn entry_parts(
    alloc: Global,
    text: &BlueText,
    book: &[Counted<'_>],
    own: &Entries<'_>,
) -> Result<Parts, NoMemory>
    requires counted { AreCounted book.now }
    requires modules { counted_modules book.now ≡ latest_first (map plain_module text.now.modules.items) }
    requires own { own.now ≡ text.now.body.items }
    ensures nodes { IfOk result (λ p. p.nodes.items ≡ part_nodes (flat_parts (plain_text text.now))) }
    ensures wires { IfOk result (λ p. p.wires.items ≡ part_wires (flat_parts (plain_text text.now))) }
{
    let mut parts = Parts {
        nodes: Vec::new(alloc),
        wires: Vec::new(alloc),
    };
    put_body(alloc, &mut parts, book, own, &[], around_of(text))?;
    Ok(parts)
}

/// The blueprint of a text that breaks no rule on modules.
fn flat(
    alloc: Global,
    text: &BlueText,
    book: &[Counted<'_>],
    own: &Entries<'_>,
) -> Result<Blueprint, NoMemory>
    requires counted { AreCounted book.now }
    requires modules { counted_modules book.now ≡ latest_first (map plain_module text.now.modules.items) }
    requires own { own.now ≡ text.now.body.items }
    ensures { IfOk result (λ b. plain b ≡ flat (plain_text text.now)) }
{
    let decider = around_of(text).decider;
    let switches = copy_lines(alloc, &text.switches)?;
    let chains = flat_chains(alloc, decider, &text.chains)?;
    let parts = entry_parts(alloc, text, book, own)?;
    Ok(Blueprint {
        switches,
        chains,
        nodes: parts.nodes,
        wires: parts.wires,
    })
}

/// The blueprint, or the first rule that is broken.
fn flat_or_fault(alloc: Global, text: &BlueText) -> Result<Result<Blueprint, ModuleFault>, NoMemory>
    ensures { IfOk result (λ r. MatchResult r (λ b. IsFlat (plain_text text.now) (plain b)) (λ f. rule_fault (plain_text text.now) ≡ Some f)) }
{
    let book = book_of(alloc, &text.modules)?;
    let own = Entries::of(alloc, &text.body)?;
    match rule_fault(alloc, text, &book, &own)? {
        Some(fault) => Ok(Err(fault)),
        None => Ok(Ok(flat(alloc, text, &book, &own)?)),
    }
}

/// The blueprint of a text: each instance is replaced by the body of its module, with the instance's name and a point before each
/// node's name. The first rule on modules that is broken decides, at its least place; whether the blueprint is too large is known
/// before anything of it is built.
pub fn flatten(alloc: Global, text: &BlueText) -> Result<Blueprint, FlatEnd>
    ensures flat { IfOk result (λ b. IsFlat (plain_text text.now) (plain b)) }
    ensures fault { (f : ModuleFault) → result ≡ Err (FlatEnd.Fault f) → rule_fault (plain_text text.now) ≡ Some f }
{
    match flat_or_fault(alloc, text) {
        Ok(Ok(blueprint)) => Ok(blueprint),
        Ok(Err(fault)) => Err(FlatEnd::Fault(fault)),
        Err(_) => Err(FlatEnd::NoMemory),
    }
}

/// The nodes and wires of the body of a text without modules. Nothing of them is copied.
fn own_parts(alloc: Global, around: Around, body: Vec<Entry>) -> Result<Parts, NoMemory>
    ensures nodes { IfOk result (λ p. p.nodes.items ≡ part_nodes (flat_body [] [] around body.items)) }
    ensures wires { IfOk result (λ p. p.wires.items ≡ part_wires (flat_body [] [] around body.items)) }
{
    let mut parts = Parts {
        nodes: Vec::new(alloc),
        wires: Vec::new(alloc),
    };
    for entry in body {
        entry.put_own(alloc, &mut parts, around)?;
    }
    Ok(parts)
}

/// The blueprint of a text without modules that breaks no rule on them.
fn own_flat(alloc: Global, text: BlueText) -> Result<Blueprint, NoMemory>
    requires { text.modules.items ≡ [] }
    ensures { IfOk result (λ b. plain b ≡ flat (plain_text text)) }
{
    let around = around_of(&text);
    let (switches, chains, body) = text.into_lists();
    let chains = flat_chains(alloc, around.decider, &chains)?;
    let parts = own_parts(alloc, around, body)?;
    Ok(Blueprint {
        switches,
        chains,
        nodes: parts.nodes,
        wires: parts.wires,
    })
}

/// The first rule on modules that a text breaks.
fn text_fault(alloc: Global, text: &BlueText) -> Result<Option<ModuleFault>, NoMemory>
    ensures { IfOk result (λ f. f ≡ rule_fault (plain_text text.now)) }
{
    let book = book_of(alloc, &text.modules)?;
    let own = Entries::of(alloc, &text.body)?;
    rule_fault(alloc, text, &book, &own)
}

/// The blueprint of a text without modules, or the first rule that is broken.
fn own_or_fault(alloc: Global, text: BlueText) -> Result<Result<Blueprint, ModuleFault>, NoMemory>
    requires { text.modules.items ≡ [] }
    ensures { IfOk result (λ r. MatchResult r (λ b. IsFlat (plain_text text) (plain b)) (λ f. rule_fault (plain_text text) ≡ Some f)) }
{
    match text_fault(alloc, &text)? {
        Some(fault) => Ok(Err(fault)),
        None => Ok(Ok(own_flat(alloc, text)?)),
    }
}

/// The same of a text that is given away: of one without modules nothing is copied, as its nodes and wires become those of the
/// blueprint.
pub fn flatten_own(alloc: Global, text: BlueText) -> Result<Blueprint, FlatEnd>
    ensures flat { IfOk result (λ b. IsFlat (plain_text text) (plain b)) }
    ensures fault { (f : ModuleFault) → result ≡ Err (FlatEnd.Fault f) → rule_fault (plain_text text) ≡ Some f }
{
    if !text.modules.is_empty() {
        return flatten(alloc, &text);
    }
    match own_or_fault(alloc, text) {
        Ok(Ok(blueprint)) => Ok(blueprint),
        Ok(Err(fault)) => Err(FlatEnd::Fault(fault)),
        Err(_) => Err(FlatEnd::NoMemory),
    }
}
