// Where a text breaks a rule on modules: the body and the line in it, in the order of the rules.
use crate::origins::TextPlace;
use crate::place::Sort;
use blue_check::fault::CheckFault;
use blue_modules::text::{BlueText, Entry, Module, PortDecl, PortMark, WireText};
use blue_words::places::size_place;
use elem_core::line::Line;

/// A body of a text: its number among modules, where it is one's, the modules that it may use, its ports and its entries.
#[derive(Clone, Copy)]
struct Body<'a> {
    number: Option<usize>,
    before: &'a [Module],
    ports: &'a [PortDecl],
    entries: &'a [Entry],
}

impl<'a> Body<'a> {
    /// The own body of a text.
    fn own(text: &'a BlueText) -> Body<'a> {
        Body {
            number: None,
            before: &text.modules,
            ports: &[],
            entries: &text.body,
        }
    }

    /// The body of the module of that number.
    fn of_module(text: &'a BlueText, number: usize) -> Option<Body<'a>> {
        if number >= text.modules.len() {
            return None;
        }
        let of = &text.modules[number];
        Some(Body {
            number: Some(number),
            before: &text.modules[..number],
            ports: &of.ports,
            entries: &of.body,
        })
    }

    /// The line of that sort and number in this body.
    fn place(&self, sort: Sort, number: usize) -> TextPlace {
        TextPlace {
            body: self.number,
            sort,
            number,
        }
    }

    /// The node or the instance of that name.
    fn named(&self, name: &Line) -> Option<&'a Entry> {
        for entry in self.entries {
            if is_named(entry, name) {
                return Some(entry);
            }
        }
        None
    }
}

/// What an entry declares.
fn sort_of(entry: &Entry) -> Sort {
    match entry {
        Entry::Node(_) => Sort::Node,
        Entry::Instance(_) => Sort::Use,
        Entry::Wire(_) => Sort::Wire,
    }
}

fn is_named(entry: &Entry, name: &Line) -> bool {
    match entry {
        Entry::Node(node) => node.name == *name,
        Entry::Instance(instance) => instance.name == *name,
        Entry::Wire(_) => false,
    }
}

/// How many entries of that sort stand before the entry of a number.
fn of_sort_before(entries: &[Entry], sort: Sort, number: usize) -> usize {
    let mut count: usize = 0;
    for (i, entry) in entries.iter().enumerate() {
        if i < number && sort_of(entry) == sort {
            count = count.saturating_add(1);
        }
    }
    count
}

/// The line of the entry of that number.
fn entry_place(body: &Body<'_>, number: usize) -> Option<TextPlace> {
    let entry = body.entries.get(number)?;
    let sort = sort_of(entry);
    Some(body.place(sort, of_sort_before(body.entries, sort, number)))
}

/// Where an entry of a body has a name that an earlier one has.
fn named_again(body: &Body<'_>, name: &Line) -> Option<TextPlace> {
    let mut is_there = false;
    for (i, entry) in body.entries.iter().enumerate() {
        if is_named(entry, name) {
            if is_there {
                return entry_place(body, i);
            }
            is_there = true;
        }
    }
    None
}

fn has_module(modules: &[Module], name: &Line) -> bool {
    for of in modules {
        if of.name == *name {
            return true;
        }
    }
    false
}

/// Where a body uses a module of that name, which is none that it may use.
fn unknown_use(body: &Body<'_>, name: &Line) -> Option<TextPlace> {
    if has_module(body.before, name) {
        return None;
    }
    for (i, entry) in body.entries.iter().enumerate() {
        if let Entry::Instance(instance) = entry {
            if instance.of == *name {
                return entry_place(body, i);
            }
        }
    }
    None
}

/// Where a body uses a name that none of its nodes and instances has.
fn unknown_name(body: &Body<'_>, name: &Line) -> Option<TextPlace> {
    if body.named(name).is_some() {
        return None;
    }
    for (i, port) in body.ports.iter().enumerate() {
        if port.node == *name {
            return Some(body.place(Sort::Port, i));
        }
    }
    for (i, entry) in body.entries.iter().enumerate() {
        if let Entry::Wire(wire) = entry {
            if wire.from == *name || wire.to == *name {
                return entry_place(body, i);
            }
        }
    }
    None
}

/// Whether a mark is written so.
fn is_written(mark: &PortMark, word: &Line) -> bool {
    match mark {
        PortMark::Name(name) => *name == *word,
        PortMark::Num(number) => match size_place(word.bytes()) {
            Ok(value) => value == *number,
            Err(_) => false,
        },
    }
}

/// Whether a module of that name has a port of that direction and name.
fn has_port(modules: &[Module], of: &Line, output: bool, name: &Line) -> bool {
    for known in modules {
        if known.name == *of {
            return has_port_among(&known.ports, output, name);
        }
    }
    false
}

fn has_port_among(ports: &[PortDecl], output: bool, name: &Line) -> bool {
    for port in ports {
        if port.output == output && port.name == *name {
            return true;
        }
    }
    false
}

/// Whether this node or instance has no port of that direction and mark, as far as modules tell.
fn lacks(body: &Body<'_>, name: &Line, output: bool, mark: &PortMark) -> bool {
    match body.named(name) {
        Some(Entry::Node(_)) => matches!(mark, PortMark::Name(_)),
        Some(Entry::Instance(instance)) => match mark {
            PortMark::Num(_) => true,
            PortMark::Name(port) => !has_port(body.before, &instance.of, output, port),
        },
        _ => false,
    }
}

/// Whether a place is that one, and at fault.
fn is_wrong(
    body: &Body<'_>,
    name: &Line,
    mark: &PortMark,
    output: bool,
    fault: (&Line, &Line),
) -> bool {
    *name == *fault.0 && is_written(mark, fault.1) && lacks(body, name, output, mark)
}

fn is_wrong_wire(body: &Body<'_>, wire: &WireText, fault: (&Line, &Line)) -> bool {
    is_wrong(body, &wire.from, &wire.output, true, fault)
        || is_wrong(body, &wire.to, &wire.input, false, fault)
}

/// Whether an earlier port has the same name and direction.
fn is_twice(ports: &[PortDecl], number: usize, port: &PortDecl) -> bool {
    for (i, other) in ports.iter().enumerate() {
        if i < number && other.output == port.output && other.name == port.name {
            return true;
        }
    }
    false
}

/// Where a port line or a wire of a body names a port that is none.
fn wrong_port(text: &BlueText, body: &Body<'_>, fault: (&Line, &Line)) -> Option<TextPlace> {
    let is_own = match body.number {
        Some(number) => match text.modules.get(number) {
            Some(of) => of.name == *fault.0,
            None => false,
        },
        None => false,
    };
    for (i, port) in body.ports.iter().enumerate() {
        if (is_own && port.name == *fault.1 && is_twice(body.ports, i, port))
            || is_wrong(body, &port.node, &port.port, port.output, fault)
        {
            return Some(body.place(Sort::Port, i));
        }
    }
    for (i, entry) in body.entries.iter().enumerate() {
        if let Entry::Wire(wire) = entry {
            if is_wrong_wire(body, wire, fault) {
                return entry_place(body, i);
            }
        }
    }
    None
}

/// Where a body breaks the rule of a fault.
fn broken_in(text: &BlueText, body: &Body<'_>, fault: &CheckFault) -> Option<TextPlace> {
    match fault {
        CheckFault::TwoNames(name) => named_again(body, name),
        CheckFault::NoSuchModule(name) => unknown_use(body, name),
        CheckFault::NoSuchName(name) => unknown_name(body, name),
        CheckFault::PortName(name, port) => wrong_port(text, body, (name, port)),
        _ => None,
    }
}

/// Whether the module of that number has a name that an earlier one has.
fn is_module_again(text: &BlueText, number: usize, fault: &CheckFault) -> bool {
    if number >= text.modules.len() {
        return false;
    }
    match fault {
        CheckFault::TwoNames(name) => {
            text.modules[number].name == *name && has_module(&text.modules[..number], name)
        }
        _ => false,
    }
}

/// Where a text breaks the rule on modules of a fault, if it is at one line.
pub fn broken_at(text: &BlueText, fault: &CheckFault) -> Option<TextPlace> {
    if let Some(place) = broken_in(text, &Body::own(text), fault) {
        return Some(place);
    }
    for i in 0..text.modules.len() {
        if is_module_again(text, i, fault) {
            return Some(TextPlace {
                body: None,
                sort: Sort::Module,
                number: i,
            });
        }
        if let Some(body) = Body::of_module(text, i) {
            if let Some(place) = broken_in(text, &body, fault) {
                return Some(place);
            }
        }
    }
    None
}
