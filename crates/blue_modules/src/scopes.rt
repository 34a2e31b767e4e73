// The bodies of a text, each with what its lines may name.
ghost use Rattle.std.specs.Prelude.{◌≡◌, ◌++◌, OnOk, IfOk};
ghost use Rattle.blue_modules.specs.Counts.{counted_modules};
ghost use Rattle.blue_modules.specs.Rules.{bodies, module_bodies, ports_among};
ghost use Rattle.blue_modules.specs.Scopes.{bodies_in};

use crate::counts::Counted;
use crate::entries::Entries;
use crate::text::PortDecl;
use elem_core::line::Line;
use elem_core::why::NoMemory;
use std::alloc::Global;

/// A body, with its module, where it has one, and the modules that its uses may name, the latest first.
#[derive(Clone, Copy)]
pub struct Scope<'a> {
    /// Its module.
    pub owner: Option<&'a Counted<'a>>,
    /// The modules that its uses may name.
    pub before: &'a [Counted<'a>],
    /// Its entries.
    pub entries: &'a Entries<'a>,
}

/// Adds the bodies of these modules, the latest of which is the first.
fn add_modules<'a>(scopes: &mut Vec<Scope<'a>>, book: &'a [Counted<'a>]) -> Result<(), NoMemory>
    ensures { OnOk result (bodies_in scopes.new.items ≡ bodies_in scopes.old.items ++ module_bodies (counted_modules book.now)) }
{
    match book.split_first() {
        None => Ok(()),
        Some((first, before)) => {
            add_modules(scopes, before)?;
            scopes.push(Scope {
                owner: Some(first),
                before,
                entries: &first.body,
            })?;
            Ok(())
        }
    }
}

/// The bodies of a text, its own first.
pub fn scopes_of<'a>(
    alloc: Global,
    book: &'a [Counted<'a>],
    own: &'a Entries<'a>,
) -> Result<Vec<Scope<'a>>, NoMemory>
    ensures { IfOk result (λ scopes. bodies_in scopes.items ≡ bodies (counted_modules book.now) own.now) }
{
    let mut scopes = Vec::new(alloc);
    scopes.push(Scope {
        owner: None,
        before: book,
        entries: own,
    })?;
    add_modules(&mut scopes, book)?;
    Ok(scopes)
}

/// The ports of the module of that name, among these.
pub fn ports_among<'a>(book: &[Counted<'a>], name: &Line) -> &'a [PortDecl]
    ensures { result.now ≡ ports_among (counted_modules book.now) name.now }
{
    match book.split_first() {
        None => &[],
        Some((first, rest)) => {
            if first.of.name == *name {
                &first.of.ports
            } else {
                ports_among(rest, name)
            }
        }
    }
}
