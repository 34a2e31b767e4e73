// What a place stands for: it is followed through ports of modules to a node.
ghost use Rattle.std.specs.Prelude.{◌≡◌, ◌++◌, ◌∷◌, [], OnOk, IfOk, true, false, not, if◌then◌else◌};
ghost use Rattle.std.specs.Option.{option_map};
ghost use Rattle.blue_modules.specs.Counts.{counted_modules};
ghost use Rattle.blue_modules.specs.Names.{module_of};
ghost use Rattle.blue_modules.specs.Flatten.{port_line, place, port_through};

use crate::counts::Counted;
use crate::entries::Entries;
use crate::text::{Entry, PortDecl, PortMark};
use elem_core::line::Line;
use elem_core::why::NoMemory;

/// The module of an instance, by its name.
fn module_of(entry: Option<&Entry>) -> Option<&Line>
    ensures { option_map (λ l. l.now) result ≡ module_of (option_map (λ e. e.now) entry.entry) }
{
    match entry {
        Some(Entry::Instance(instance)) => Some(&instance.of),
        _ => None,
    }
}

fn is_side(output: bool, port: &PortDecl) -> bool
    ensures { result ≡ (if output then port.now.output else not port.now.output) }
{
    if output { port.output } else { !port.output }
}

/// The port line of that direction and that name.
pub fn port_line<'a>(output: bool, name: &Line, ports: &'a [PortDecl]) -> Option<&'a PortDecl>
    ensures { option_map (λ d. d.now) result ≡ port_line output name.now ports.now }
{
    match ports.split_first() {
        None => None,
        Some((first, rest)) => {
            if is_side(output, first) && first.name == *name {
                Some(first)
            } else {
                port_line(output, name, rest)
            }
        }
    }
}

/// Appends to a path the name of the node that a place of a body stands for, and answers the number of its port.
#[cycle(follow)]
pub fn follow(
    path: &mut Vec<u8>,
    book: &[Counted<'_>],
    body: &Entries<'_>,
    output: bool,
    name: &Line,
    port: &PortMark,
) -> Result<u32, NoMemory>
    ensures path { OnOk result (path.new.items ≡ path.old.items ++ (place (port_through output (counted_modules book.now)) body.now name.now port.now).0) }
    ensures number { IfOk result (λ n. n ≡ (place (port_through output (counted_modules book.now)) body.now name.now port.now).1) }
{
    path.extend_from_slice(name.bytes())?;
    match port {
        PortMark::Num(number) => Ok(*number),
        PortMark::Name(port) => {
            path.push(b'.')?;
            match module_of(body.named(name)) {
                Some(of) => follow_port(path, book, output, of, port),
                None => Ok(0),
            }
        }
    }
}

/// The same for a port of the module of that name, among these; the latest is the first.
#[cycle(follow)]
fn follow_port(
    path: &mut Vec<u8>,
    book: &[Counted<'_>],
    output: bool,
    of: &Line,
    port: &Line,
) -> Result<u32, NoMemory>
    ensures path { OnOk result (path.new.items ≡ path.old.items ++ (port_through output (counted_modules book.now) of.now port.now).0) }
    ensures number { IfOk result (λ n. n ≡ (port_through output (counted_modules book.now) of.now port.now).1) }
{
    match book.split_first() {
        None => Ok(0),
        Some((first, rest)) => {
            if first.of.name == *of {
                match port_line(output, port, &first.of.ports) {
                    Some(line) => follow(path, rest, &first.body, output, &line.node, &line.port),
                    None => Ok(0),
                }
            } else {
                follow_port(path, rest, output, of, port)
            }
        }
    }
}
