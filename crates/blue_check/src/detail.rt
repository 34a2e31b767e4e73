// What a report says of a fault beside its number.
ghost use Rattle.std.specs.Prelude.{◌≡◌, ◌++◌, ◌∷◌, [], OnOk, codes};
ghost use Rattle.std.specs.Fmt.{decimal};
ghost use Rattle.blue_check.specs.Detail.{type_text, want_text, wire_text, spot_text, side_text, fault_words, detail_text};

use crate::fault::CheckFault;
use blue_names::spot::Spot;
use blue_names::want::Want;
use elem_core::elem_type::{ElemType, TypeForm};
use elem_core::why::NoMemory;
use itoa::Buffer;

/// Appends a number.
fn put_number(bytes: &mut Vec<u8>, n: u32) -> Result<(), NoMemory>
    ensures { OnOk result (bytes.new.items ≡ bytes.old.items ++ decimal n) }
{
    let mut buffer = Buffer::new();
    bytes.extend_from_slice(buffer.format(n).as_bytes())
}

/// Appends a number behind a word.
fn put_place(bytes: &mut Vec<u8>, word: &[u8], n: u32) -> Result<(), NoMemory>
    ensures { OnOk result (bytes.new.items ≡ bytes.old.items ++ (word.now ++ decimal n)) }
{
    bytes.extend_from_slice(word)?;
    put_number(bytes, n)
}

/// Appends the text of a type: `num`, `text`, `[T]` or `(T,U)`.
pub fn put_type(bytes: &mut Vec<u8>, t: &ElemType) -> Result<(), NoMemory>
    ensures { OnOk result (bytes.new.items ≡ bytes.old.items ++ type_text t.now) }
{
    match t.form() {
        TypeForm::Num => bytes.extend_from_slice(b"num"),
        TypeForm::Text => bytes.extend_from_slice(b"text"),
        TypeForm::SeqOf(items) => {
            bytes.push(b'[')?;
            put_type(bytes, items)?;
            bytes.push(b']')?;
            Ok(())
        }
        TypeForm::PairOf(left, right) => {
            bytes.push(b'(')?;
            put_type(bytes, left)?;
            bytes.push(b',')?;
            put_type(bytes, right)?;
            bytes.push(b')')?;
            Ok(())
        }
    }
}

/// Appends the text of what is accepted.
fn put_want(bytes: &mut Vec<u8>, want: &Want) -> Result<(), NoMemory>
    ensures { OnOk result (bytes.new.items ≡ bytes.old.items ++ want_text want.now) }
{
    match want {
        Want::Is(t) => put_type(bytes, t),
        Want::AnySeq => bytes.extend_from_slice(b"[any]"),
        Want::AnyPair => bytes.extend_from_slice(b"(any,any)"),
    }
}

/// Appends a place.
fn put_spot(bytes: &mut Vec<u8>, spot: Spot) -> Result<(), NoMemory>
    ensures { OnOk result (bytes.new.items ≡ bytes.old.items ++ spot_text spot) }
{
    match spot {
        Spot::Node(i) => put_place(bytes, b"node ", i),
        Spot::Wire(i) => put_place(bytes, b"wire ", i),
        Spot::Chain(i) => put_place(bytes, b"chain ", i),
    }
}

/// Appends a port of a node.
fn put_port(bytes: &mut Vec<u8>, name: &[u8], output: bool, port: u32) -> Result<(), NoMemory>
    ensures { OnOk result (bytes.new.items ≡ bytes.old.items ++ (name.now ++ side_text output ++ decimal port)) }
{
    bytes.extend_from_slice(name)?;
    if output {
        bytes.extend_from_slice(b" output ")?;
    } else {
        bytes.extend_from_slice(b" input ")?;
    }
    put_number(bytes, port)
}

/// Appends a clash.
fn put_clash(bytes: &mut Vec<u8>, wire: u32, left: &ElemType, want: &Want) -> Result<(), NoMemory>
    ensures { OnOk result (bytes.new.items ≡ bytes.old.items ++ (wire_text wire ++ codes " " ++ type_text left.now ++ codes " " ++ want_text want.now)) }
{
    put_place(bytes, b"wire ", wire)?;
    bytes.extend_from_slice(b" ")?;
    put_type(bytes, left)?;
    bytes.extend_from_slice(b" ")?;
    put_want(bytes, want)
}

/// Appends two names.
fn put_names(bytes: &mut Vec<u8>, first: &[u8], second: &[u8]) -> Result<(), NoMemory>
    ensures { OnOk result (bytes.new.items ≡ bytes.old.items ++ (first.now ++ codes " " ++ second.now)) }
{
    bytes.extend_from_slice(first)?;
    bytes.extend_from_slice(b" ")?;
    bytes.extend_from_slice(second)
}

// Choice: docs/DECISIONS.md#detail-comes-first
/// Appends what a report says of a fault behind its number, with a space before it; of some faults that is nothing.
pub fn put_detail(bytes: &mut Vec<u8>, fault: &CheckFault) -> Result<(), NoMemory>
    ensures { OnOk result (bytes.new.items ≡ bytes.old.items ++ detail_text fault.now) }
{
    match fault {
        CheckFault::TooLarge => Ok(()),
        _ => {
            bytes.push(b' ')?;
            put_words(bytes, fault)
        }
    }
}

/// Appends what is at fault.
fn put_words(bytes: &mut Vec<u8>, fault: &CheckFault) -> Result<(), NoMemory>
    ensures { OnOk result (bytes.new.items ≡ bytes.old.items ++ fault_words fault.now) }
{
    match fault {
        CheckFault::TwoNames(name) => bytes.extend_from_slice(name.bytes()),
        CheckFault::NoSuchName(name) => bytes.extend_from_slice(name.bytes()),
        CheckFault::NoSuchPort(i) => put_place(bytes, b"wire ", *i),
        CheckFault::PortTwice(i) => put_place(bytes, b"wire ", *i),
        CheckFault::PortOpen(name, output, port) => put_port(bytes, name.bytes(), *output, *port),
        CheckFault::TypeClash(wire, left, want) => put_clash(bytes, *wire, left, want),
        CheckFault::ClosedWalk(i) => put_place(bytes, b"wire ", *i),
        CheckFault::TooDeep(name) => bytes.extend_from_slice(name.bytes()),
        CheckFault::NoSuchPlug(name) => bytes.extend_from_slice(name.bytes()),
        CheckFault::PlugTwice(name) => bytes.extend_from_slice(name.bytes()),
        CheckFault::BadSize(spot) => put_spot(bytes, *spot),
        CheckFault::NoSuchModule(name) => bytes.extend_from_slice(name.bytes()),
        CheckFault::PortName(name, port) => put_names(bytes, name.bytes(), port.bytes()),
        CheckFault::TooLarge => Ok(()),
        CheckFault::HubWire(i) => put_place(bytes, b"wire ", *i),
    }
}
