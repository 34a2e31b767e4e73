// The rules on modules.
ghost use Rattle.std.specs.Prelude.{◌≡◌, ℕ, List, IfOk, map, nat_lt, ◌||◌};
ghost use Rattle.std.specs.Fmt.{decimal};
ghost use Rattle.stream_model.specs.declared.limit.TheConstants.{MAX_NODES, MAX_WIRES};
ghost use Rattle.blue_names.specs.First.{when};
ghost use Rattle.blue_modules.specs.Text.{plain_module, plain_text};
ghost use Rattle.blue_modules.specs.declared.parts.Around.{Around as SetAround};
ghost use Rattle.blue_modules.specs.Counts.{AreCounted, counted_modules};
ghost use Rattle.blue_modules.specs.Flatten.{flat_body, latest_first};
ghost use Rattle.blue_modules.specs.Rules.{mark_text};
ghost use Rattle.blue_modules.specs.Scopes.{wrong_of};
ghost use Rattle.blue_modules.specs.ScopeFaults.{names_in, faults_in};
ghost use Rattle.blue_modules.specs.Fitness.{rule_fault, port_fault, exceeds_limits};

use crate::counts::{Counted, Size, body_size};
use crate::entries::Entries;
use crate::fault::ModuleFault;
use crate::names::{first_named_again, first_unknown_module, first_unknown_name};
use crate::parts::line_of;
use crate::ports::{Wrong, first_wrong};
use crate::scopes::{Scope, scopes_of};
use crate::text::{BlueText, Entry, PortMark};
use elem_core::line::Line;
use elem_core::why::NoMemory;
use itoa::Buffer;
use std::alloc::Global;
use stream_model::limit::{MAX_NODES, MAX_WIRES};

/// The decimal of a number.
fn number_line(alloc: Global, number: u32) -> Result<Line, NoMemory>
    ensures { IfOk result (λ l. l ≡ decimal number) }
{
    let mut buffer = Buffer::new();
    line_of(buffer.format(number).as_bytes().to_vec(alloc)?)
}

// Choice: docs/DECISIONS.md#port-as-written
/// A port as it is written.
fn mark_line(alloc: Global, mark: &PortMark) -> Result<Line, NoMemory>
    ensures { IfOk result (λ l. l ≡ mark_text mark.now) }
{
    match mark {
        PortMark::Num(number) => number_line(alloc, *number),
        PortMark::Name(name) => name.copy(alloc),
    }
}

fn port_fault(alloc: Global, wrong: Wrong<'_>) -> Result<ModuleFault, NoMemory>
    ensures { IfOk result (λ f. f ≡ port_fault (wrong_of wrong.entry)) }
{
    match wrong {
        Wrong::Twice(module, port) => {
            Ok(ModuleFault::PortName(module.copy(alloc)?, port.copy(alloc)?))
        }
        Wrong::Place(name, mark) => {
            Ok(ModuleFault::PortName(name.copy(alloc)?, mark_line(alloc, mark)?))
        }
    }
}

/// The first fault of a name.
fn first_name_fault(alloc: Global, scopes: &[Scope<'_>]) -> Result<Option<ModuleFault>, NoMemory>
    ensures { IfOk result (λ f. f ≡ names_in scopes.now) }
{
    if let Some(name) = first_named_again(scopes) {
        return Ok(Some(ModuleFault::TwoNames(name.copy(alloc)?)));
    }
    if let Some(name) = first_unknown_module(scopes) {
        return Ok(Some(ModuleFault::NoSuchModule(name.copy(alloc)?)));
    }
    match first_unknown_name(scopes) {
        Some(name) => Ok(Some(ModuleFault::NoSuchName(name.copy(alloc)?))),
        None => Ok(None),
    }
}

/// The first fault of a name, or else of a port.
fn bodies_fault(alloc: Global, scopes: &[Scope<'_>]) -> Result<Option<ModuleFault>, NoMemory>
    ensures { IfOk result (λ f. f ≡ faults_in scopes.now) }
{
    if let Some(fault) = first_name_fault(alloc, scopes)? {
        return Ok(Some(fault));
    }
    match first_wrong(scopes) {
        Some(wrong) => Ok(Some(port_fault(alloc, wrong)?)),
        None => Ok(None),
    }
}

/// Whether these are more nodes or wires than a blueprint may have.
fn is_too_large(size: Size) -> bool
    ensures { result ≡ (nat_lt MAX_NODES size.nodes || nat_lt MAX_WIRES size.wires) }
{
    size.nodes as usize > MAX_NODES || size.wires as usize > MAX_WIRES
}

/// The fault of a body that comes to more nodes or wires than a blueprint may have. Nothing is built.
fn size_fault(book: &[Counted<'_>], body: &[Entry]) -> Option<ModuleFault>
    requires { AreCounted book.now }
    ensures { (prefix : List ℕ) (around : SetAround) → result ≡ when (exceeds_limits
        (flat_body (counted_modules book.now) prefix around body.now)) ModuleFault.TooLarge }
{
    let size = body_size(book, body);
    if is_too_large(size) {
        Some(ModuleFault::TooLarge)
    } else {
        None
    }
}

/// The first rule on modules that a text breaks.
pub fn rule_fault(
    alloc: Global,
    text: &BlueText,
    book: &[Counted<'_>],
    own: &Entries<'_>,
) -> Result<Option<ModuleFault>, NoMemory>
    requires counted { AreCounted book.now }
    requires modules { counted_modules book.now ≡ latest_first (map plain_module text.now.modules.items) }
    requires own { own.now ≡ text.now.body.items }
    ensures { IfOk result (λ f. f ≡ rule_fault (plain_text text.now)) }
{
    let scopes = scopes_of(alloc, book, own)?;
    match bodies_fault(alloc, &scopes)? {
        Some(fault) => Ok(Some(fault)),
        None => Ok(size_fault(book, &text.body)),
    }
}
