// How many nodes and wires modules come to.
ghost use Rattle.std.specs.Prelude.{◌≡◌, ◌+◌, min, [], ◌∷◌, map, IfOk};
ghost use Rattle.blue_modules.specs.Counts.{capped, entry_weight, module_weight, body_weight, counted_modules, plain_counted, AreCounted};
ghost use Rattle.blue_modules.specs.Flatten.{latest_first};
ghost use Rattle.blue_modules.specs.Text.{plain_module};

use crate::entries::Entries;
use crate::text::{Entry, Module};
use elem_core::line::Line;
use elem_core::why::NoMemory;
use std::alloc::Global;

/// A module, with the numbers of nodes and wires that it comes to; the greatest number stands for all that are greater.
#[derive(Drop)]
pub struct Counted<'a> {
    /// The module.
    pub of: &'a Module,
    /// Its body.
    pub body: Entries<'a>,
    /// Its nodes, with those of its instances.
    pub nodes: u32,
    /// Its wires, with those of its instances.
    pub wires: u32,
}

/// So many nodes and wires.
#[derive(Clone, Copy)]
pub struct Size {
    /// Nodes.
    pub nodes: u32,
    /// Wires.
    pub wires: u32,
}

/// What the module of that name comes to, among these; the latest is the first.
fn module_size(book: &[Counted<'_>], name: &Line) -> Size
    requires { AreCounted book.now }
    ensures nodes { result.nodes ≡ capped (module_weight 1 0 (counted_modules book.now) name.now) }
    ensures wires { result.wires ≡ capped (module_weight 0 1 (counted_modules book.now) name.now) }
{
    match book.split_first() {
        None => Size { nodes: 0, wires: 0 },
        Some((first, rest)) => {
            if first.of.name == *name {
                Size {
                    nodes: first.nodes,
                    wires: first.wires,
                }
            } else {
                module_size(rest, name)
            }
        }
    }
}

fn entry_size(book: &[Counted<'_>], entry: &Entry) -> Size
    requires { AreCounted book.now }
    ensures nodes { result.nodes ≡ capped (entry_weight 1 0 (module_weight 1 0 (counted_modules book.now)) entry.now) }
    ensures wires { result.wires ≡ capped (entry_weight 0 1 (module_weight 0 1 (counted_modules book.now)) entry.now) }
{
    match entry {
        Entry::Node(_) => Size { nodes: 1, wires: 0 },
        Entry::Instance(instance) => module_size(book, &instance.of),
        Entry::Wire(_) => Size { nodes: 0, wires: 1 },
    }
}

/// What a body comes to.
pub fn body_size(book: &[Counted<'_>], body: &[Entry]) -> Size
    requires { AreCounted book.now }
    ensures nodes { result.nodes ≡ capped (body_weight 1 0 (counted_modules book.now) body.now) }
    ensures wires { result.wires ≡ capped (body_weight 0 1 (counted_modules book.now) body.now) }
{
    let mut size = Size { nodes: 0, wires: 0 };
    for entry in body {
        let more = entry_size(book, entry);
        size.nodes = size.nodes.saturating_add(more.nodes);
        size.wires = size.wires.saturating_add(more.wires);
    }
    size
}

/// A module with what it comes to over those before it.
fn count_module<'a>(
    alloc: Global,
    book: &[Counted<'_>],
    of: &'a Module,
) -> Result<Counted<'a>, NoMemory>
    requires { AreCounted book.now }
    ensures nodes { IfOk result (λ c. c.nodes ≡ capped (body_weight 1 0 (counted_modules book.now) c.body)) }
    ensures wires { IfOk result (λ c. c.wires ≡ capped (body_weight 0 1 (counted_modules book.now) c.body)) }
    ensures plain { IfOk result (λ c. plain_counted c ≡ plain_module of.now) }
{
    let Size { nodes, wires } = body_size(book, &of.body);
    let body = Entries::of(alloc, &of.body)?;
    Ok(Counted {
        of,
        body,
        nodes,
        wires,
    })
}

/// The modules, the latest first, each with what it comes to.
pub fn book_of<'a>(alloc: Global, modules: &'a [Module]) -> Result<Vec<Counted<'a>>, NoMemory>
    ensures counted { IfOk result (λ book. AreCounted book.items) }
    ensures modules { IfOk result (λ book. counted_modules book.items ≡ latest_first (map plain_module modules.now)) }
{
    let mut book = Vec::new(alloc);
    for of in modules {
        let counted = count_module(alloc, &book, of)?;
        book.insert(0, counted)?;
    }
    Ok(book)
}
