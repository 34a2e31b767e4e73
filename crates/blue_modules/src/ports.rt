// The rule on the names of ports, and on the places that name them.
ghost use Rattle.std.specs.Prelude.{◌≡◌, ◌<◌, Option, is_none, length};
ghost use Rattle.std.specs.List.{list_all};
ghost use Rattle.std.specs.Option.{option_map, option_or};
ghost use Rattle.blue_names.specs.First.{first_from, when};
ghost use Rattle.blue_modules.specs.Counts.{counted_modules, plain_counted};
ghost use Rattle.blue_modules.specs.Flatten.{port_line};
ghost use Rattle.blue_modules.specs.Rules.{is_wrong, wrong_place, wrong_wire, wrong_port, wrong_among_ports, wrong_in, by_number, names_no_port};
ghost use Rattle.blue_modules.specs.Scopes.{body_in, wrong_of};

use crate::counts::Counted;
use crate::places::port_line;
use crate::scopes::{Scope, ports_among};
use crate::text::{Entry, PortDecl, PortMark};
use elem_core::line::Line;

/// A port line or a place that is at fault.
#[derive(Clone, Copy)]
pub enum Wrong<'a> {
    /// A module has two ports of one direction and this name.
    Twice(&'a Line, &'a Line),
    /// The node or the instance of that name has no such port.
    Place(&'a Line, &'a PortMark),
}

fn is_wrong(before: &[Counted<'_>], output: bool, entry: Option<&Entry>, mark: &PortMark) -> bool
    ensures { result ≡ is_wrong (counted_modules before.now) output (option_map (λ e. e.now) entry.entry) mark.now }
{
    match entry {
        Some(Entry::Node(_)) => matches!(mark, PortMark::Name(_)),
        Some(Entry::Instance(instance)) => match mark {
            PortMark::Num(_) => true,
            PortMark::Name(name) => {
                port_line(output, name, ports_among(before, &instance.of)).is_none()
            }
        },
        _ => false,
    }
}

fn wrong_place<'a>(
    scope: &Scope<'_>,
    output: bool,
    name: &'a Line,
    mark: &'a PortMark,
) -> Option<Wrong<'a>>
    ensures { option_map wrong_of result ≡ wrong_place (body_in scope.now) output name.now mark.now }
{
    if is_wrong(scope.before, output, scope.entries.named(name), mark) {
        Some(Wrong::Place(name, mark))
    } else {
        None
    }
}

fn wrong_wire<'a>(scope: &Scope<'_>, entry: &'a Entry) -> Option<Wrong<'a>>
    ensures { option_map wrong_of result ≡ wrong_wire (body_in scope.now) entry.now }
{
    match entry {
        Entry::Wire(wire) => match wrong_place(scope, true, &wire.from, &wire.output) {
            Some(wrong) => Some(wrong),
            None => wrong_place(scope, false, &wire.to, &wire.input),
        },
        _ => None,
    }
}

fn wrong_among_wires<'a>(scope: &Scope<'_>, entries: &'a [Entry]) -> Option<Wrong<'a>>
    ensures { option_map wrong_of result ≡ first_from (λ _ e. wrong_wire (body_in scope.now) e) 0 entries.now }
{
    for entry in entries {
        if let Some(wrong) = wrong_wire(scope, entry) {
            return Some(wrong);
        }
    }
    None
}

fn wrong_port<'a>(
    owner: &'a Counted<'a>,
    scope: &Scope<'a>,
    i: usize,
    port: &'a PortDecl,
) -> Option<Wrong<'a>>
    requires { i < length (owner.now.of.now).ports.items }
    ensures { option_map wrong_of result ≡ wrong_port (plain_counted owner.now) (body_in scope.now) i port.now }
{
    if port_line(port.output, &port.name, &owner.of.ports[..i]).is_some() {
        return Some(Wrong::Twice(&owner.of.name, &port.name));
    }
    wrong_place(scope, port.output, &port.node, &port.port)
}

fn wrong_in_module<'a>(owner: &'a Counted<'a>, scope: &Scope<'a>) -> Option<Wrong<'a>>
    ensures { option_map wrong_of result ≡ first_from (wrong_port (plain_counted owner.now) (body_in scope.now)) 0 (owner.now.of.now).ports.items }
{
    for (i, port) in owner.of.ports.iter().enumerate() {
        if let Some(wrong) = wrong_port(owner, scope, i, port) {
            return Some(wrong);
        }
    }
    None
}

fn wrong_among_ports<'a>(scope: &Scope<'a>) -> Option<Wrong<'a>>
    ensures { option_map wrong_of result ≡ wrong_among_ports (body_in scope.now).owner (body_in scope.now) }
{
    match scope.owner {
        Some(owner) => wrong_in_module(owner, scope),
        None => None,
    }
}

fn by_number(mark: &PortMark) -> bool
    ensures { result ≡ by_number mark.now }
{
    matches!(mark, PortMark::Num(_))
}

fn names_no_port(entry: &Entry) -> bool
    ensures { result ≡ names_no_port entry.now }
{
    match entry {
        Entry::Node(_) => true,
        Entry::Instance(_) => false,
        Entry::Wire(wire) => by_number(&wire.output) && by_number(&wire.input),
    }
}

/// Whether a body has nodes and wires between ports that are told by their numbers alone.
fn name_no_ports(entries: &[Entry]) -> bool
    ensures { result ≡ list_all names_no_port entries.now }
{
    for entry in entries {
        if !names_no_port(entry) {
            return false;
        }
    }
    true
}

/// The first place of a wire at fault. Where no port has a name and none is an instance's, none is, and no name needs to be looked up.
fn wrong_in_wires<'a>(scope: &Scope<'a>) -> Option<Wrong<'a>>
    ensures { option_map wrong_of result ≡ first_from (λ _ e. wrong_wire (body_in scope.now) e) 0 (body_in scope.now).entries }
{
    if name_no_ports(scope.entries.all()) {
        None
    } else {
        wrong_among_wires(scope, scope.entries.all())
    }
}

fn wrong_in<'a>(scope: &Scope<'a>) -> Option<Wrong<'a>>
    ensures { option_map wrong_of result ≡ wrong_in (body_in scope.now) }
{
    match wrong_among_ports(scope) {
        Some(wrong) => Some(wrong),
        None => wrong_in_wires(scope),
    }
}

/// The first port line or place at fault, in the bodies of a text.
pub fn first_wrong<'a>(scopes: &[Scope<'a>]) -> Option<Wrong<'a>>
    ensures { option_map wrong_of result ≡ first_from (λ _ s. wrong_in (body_in s)) 0 scopes.now }
{
    for scope in scopes {
        if let Some(wrong) = wrong_in(scope) {
            return Some(wrong);
        }
    }
    None
}
