// The rules on names: of modules, nodes and instances, of the modules that uses name, and of what wires and port lines name.
ghost use Rattle.std.specs.Prelude.{◌≡◌, ◌<◌, Option, take, is_none, is_some, length};
ghost use Rattle.std.specs.Option.{option_map, option_or};
ghost use Rattle.blue_names.specs.First.{first_from, when};
ghost use Rattle.blue_modules.specs.Counts.{counted_modules, plain_counted};
ghost use Rattle.blue_modules.specs.Rules.{has_module, name_of, taken_in, owner_again, named_again, unknown_use, unknown_module, unless_named, unknown_at_end, unknown_at_ports, unknown_in_body};
ghost use Rattle.blue_modules.specs.Scopes.{body_in};

use crate::counts::Counted;
use crate::entries::Entries;
use crate::scopes::Scope;
use crate::text::{Entry, PortDecl};
use elem_core::line::Line;

/// Whether the module of that name is among these.
fn has_module(book: &[Counted<'_>], name: &Line) -> bool
    ensures { result ≡ has_module (counted_modules book.now) name.now }
{
    match book.split_first() {
        None => false,
        Some((first, rest)) => first.of.name == *name || has_module(rest, name),
    }
}

fn name_of(entry: &Entry) -> Option<&Line>
    ensures { option_map (λ l. l.now) result ≡ name_of entry.now }
{
    match entry {
        Entry::Node(node) => Some(&node.name),
        Entry::Instance(instance) => Some(&instance.name),
        Entry::Wire(_) => None,
    }
}

fn taken_before<'a>(
    entries: &Entries<'_>,
    number: usize,
    name: Option<&'a Line>,
) -> Option<&'a Line>
    ensures { option_map (λ l. l.now) result ≡ taken_in (take number entries.now) (option_map (λ l. l.now) name.entry) }
{
    match name {
        Some(name) if entries.has_before(name, number) => Some(name),
        _ => None,
    }
}

fn owner_again<'a>(owner: Option<&'a Counted<'a>>, before: &[Counted<'_>]) -> Option<&'a Line>
    ensures { option_map (λ l. l.now) result ≡ owner_again (option_map (λ c. plain_counted c.now) owner.entry) (counted_modules before.now) }
{
    match owner {
        Some(owner) if has_module(before, &owner.of.name) => Some(&owner.of.name),
        _ => None,
    }
}

/// The first name of a body that an earlier node or instance of it has.
fn taken_again<'a>(body: &Entries<'_>, entries: &'a [Entry]) -> Option<&'a Line>
    ensures { option_map (λ l. l.now) result ≡ first_from (λ i e. taken_in (take i body.now) (name_of e)) 0 entries.now }
{
    for (i, entry) in entries.iter().enumerate() {
        if let Some(name) = taken_before(body, i, name_of(entry)) {
            return Some(name);
        }
    }
    None
}

fn named_again<'a>(scope: &Scope<'a>) -> Option<&'a Line>
    ensures { option_map (λ l. l.now) result ≡ named_again (body_in scope.now) }
{
    match owner_again(scope.owner, scope.before) {
        Some(name) => Some(name),
        None => taken_again(scope.entries, scope.entries.all()),
    }
}

/// The first name that is taken twice, in the bodies of a text.
pub fn first_named_again<'a>(scopes: &[Scope<'a>]) -> Option<&'a Line>
    ensures { option_map (λ l. l.now) result ≡ first_from (λ _ s. named_again (body_in s)) 0 scopes.now }
{
    for scope in scopes {
        if let Some(name) = named_again(scope) {
            return Some(name);
        }
    }
    None
}

fn unknown_use<'a>(before: &[Counted<'_>], entry: &'a Entry) -> Option<&'a Line>
    ensures { option_map (λ l. l.now) result ≡ unknown_use (counted_modules before.now) entry.now }
{
    match entry {
        Entry::Instance(instance) => {
            if has_module(before, &instance.of) {
                None
            } else {
                Some(&instance.of)
            }
        }
        _ => None,
    }
}

fn unknown_among<'a>(before: &[Counted<'_>], entries: &'a [Entry]) -> Option<&'a Line>
    ensures { option_map (λ l. l.now) result ≡ first_from (λ _ e. unknown_use (counted_modules before.now) e) 0 entries.now }
{
    for entry in entries {
        if let Some(name) = unknown_use(before, entry) {
            return Some(name);
        }
    }
    None
}

fn unknown_module<'a>(scope: &Scope<'a>) -> Option<&'a Line>
    ensures { option_map (λ l. l.now) result ≡ unknown_module (body_in scope.now) }
{
    unknown_among(scope.before, scope.entries.all())
}

/// The first module that is used where it may not be named, in the bodies of a text.
pub fn first_unknown_module<'a>(scopes: &[Scope<'a>]) -> Option<&'a Line>
    ensures { option_map (λ l. l.now) result ≡ first_from (λ _ s. unknown_module (body_in s)) 0 scopes.now }
{
    for scope in scopes {
        if let Some(name) = unknown_module(scope) {
            return Some(name);
        }
    }
    None
}

fn unless_named<'a>(entries: &Entries<'_>, name: &'a Line) -> Option<&'a Line>
    ensures { option_map (λ l. l.now) result ≡ unless_named entries.now name.now }
{
    if entries.named(name).is_none() {
        Some(name)
    } else {
        None
    }
}

fn unknown_at_end<'a>(entries: &Entries<'_>, entry: &'a Entry) -> Option<&'a Line>
    ensures { option_map (λ l. l.now) result ≡ unknown_at_end entries.now entry.now }
{
    match entry {
        Entry::Wire(wire) => match unless_named(entries, &wire.from) {
            Some(name) => Some(name),
            None => unless_named(entries, &wire.to),
        },
        _ => None,
    }
}

fn unknown_at_ports<'a>(entries: &Entries<'_>, ports: &'a [PortDecl]) -> Option<&'a Line>
    ensures { option_map (λ l. l.now) result ≡ first_from (λ _ d. unless_named entries.now d.node) 0 ports.now }
{
    for port in ports {
        if let Some(name) = unless_named(entries, &port.node) {
            return Some(name);
        }
    }
    None
}

fn unknown_at_wires<'a>(body: &Entries<'_>, entries: &'a [Entry]) -> Option<&'a Line>
    ensures { option_map (λ l. l.now) result ≡ first_from (λ _ e. unknown_at_end body.now e) 0 entries.now }
{
    for entry in entries {
        if let Some(name) = unknown_at_end(body, entry) {
            return Some(name);
        }
    }
    None
}

fn unknown_at_owner<'a>(owner: Option<&'a Counted<'a>>, entries: &Entries<'_>) -> Option<&'a Line>
    ensures { option_map (λ l. l.now) result ≡ unknown_at_ports (option_map (λ c. plain_counted c.now) owner.entry) entries.now }
{
    match owner {
        Some(owner) => unknown_at_ports(entries, &owner.of.ports),
        None => None,
    }
}

fn unknown_in_body<'a>(scope: &Scope<'a>) -> Option<&'a Line>
    ensures { option_map (λ l. l.now) result ≡ unknown_in_body (body_in scope.now) }
{
    match unknown_at_owner(scope.owner, scope.entries) {
        Some(name) => Some(name),
        None => unknown_at_wires(scope.entries, scope.entries.all()),
    }
}

/// The first name that a port line or a wire uses and that its body lacks, in the bodies of a text.
pub fn first_unknown_name<'a>(scopes: &[Scope<'a>]) -> Option<&'a Line>
    ensures { option_map (λ l. l.now) result ≡ first_from (λ _ s. unknown_in_body (body_in s)) 0 scopes.now }
{
    for scope in scopes {
        if let Some(name) = unknown_in_body(scope) {
            return Some(name);
        }
    }
    None
}
