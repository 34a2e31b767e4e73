// Places, and what names them: wires, instances, and the ports of modules.
ghost use Rattle.std.specs.Prelude.{◌≡◌, IfOk, Some, Ok};
ghost use Rattle.blue_modules.specs.declared.text.PortMark.TheVariants.{Num};
ghost use Rattle.blue_words.specs.Numbers.{read_count};
ghost use Rattle.blue_words.specs.Reading.{Reads, at_map};
ghost use Rattle.blue_lang.specs.Declarations.{read_mark, read_port_place, bare_lane, is_keep, read_keep, read_lane, read_lane_size, read_end, wire_from, read_wire, read_use, read_behind, port_from, read_port};

use crate::attrs::read_attrs;
use blue_modules::text::{LaneMark, PortDecl, PortMark, UseText, WireText};
use blue_words::fault::{FormEnd, PlaceValue, Version};
use blue_words::lines::cut_at;
use blue_words::names::begins_with_letter;
use blue_words::places::{both, name_place, size_place};
use blue_words::words::{Words, is_word};
use elem_core::line::Line;
use elem_core::why::NoMemory;
use std::alloc::Global;
use stream_model::limit::DEFAULT_LANE;

// What stands behind the point of a place: in version 2 a name, where it begins with a letter; else a number.
fn read_mark(alloc: Global, version: Version, word: &[u8]) -> Result<PlaceValue<PortMark>, NoMemory>
    ensures { IfOk result (λ p. p ≡ read_mark version word.now) }
{
    match version {
        Version::First => Ok(number_mark(word)),
        Version::Second => {
            if begins_with_letter(word) {
                Ok(name_place(alloc, word)?.map(PortMark::Name))
            } else {
                Ok(number_mark(word))
            }
        }
    }
}

fn number_mark(word: &[u8]) -> PlaceValue<PortMark>
    ensures { result ≡ at_map Num (read_count 32 word.now) }
{
    match size_place(word) {
        Ok(number) => Ok(PortMark::Num(number)),
        Err(kind) => Err(kind),
    }
}

// The name of a node or of an instance, and behind the first point its port.
fn read_port_place(
    alloc: Global,
    version: Version,
    words: &mut Words,
) -> Result<PlaceValue<(Line, PortMark)>, FormEnd>
    ensures { Reads result (read_port_place version words.old) words.new }
{
    let Some(word) = words.next() else {
        return Err(FormEnd::BadLine);
    };
    match cut_at(word, b'.') {
        Some((name, mark)) => {
            let name = name_place(alloc, name)?;
            let mark = read_mark(alloc, version, mark)?;
            Ok(both(name, mark))
        }
        None => Err(FormEnd::BadLine),
    }
}

// The place that a wire goes to, behind `->`.
fn read_end(
    alloc: Global,
    version: Version,
    words: &mut Words,
) -> Result<PlaceValue<(Line, PortMark)>, FormEnd>
    ensures { Reads result (read_end version words.old) words.new }
{
    if words.skip(b"->") {
        read_port_place(alloc, version, words)
    } else {
        Err(FormEnd::BadLine)
    }
}

// The lane of a wire that has one and names no size.
fn bare_lane(version: Version) -> LaneMark
    ensures { result ≡ bare_lane version }
{
    match version {
        Version::First => LaneMark::Own(DEFAULT_LANE),
        Version::Second => LaneMark::Inherited,
    }
}

// Whether a wire has a lane, its size, and whether it keeps what came before a failure.
fn read_lane(version: Version, words: &mut Words) -> Result<PlaceValue<(LaneMark, bool)>, FormEnd>
    ensures { Reads result (read_lane version words.old) words.new }
{
    let Some(word) = words.next() else {
        return Ok(Ok((LaneMark::Fused, false)));
    };
    if is_word(word, b"async") {
        read_lane_size(version, words)
    } else {
        Err(FormEnd::BadLine)
    }
}

// Whether the word is the mark of a lane that keeps what came before a failure.
fn is_keep(version: Version, word: &[u8]) -> bool
    ensures { result ≡ is_keep version word.now }
{
    match version {
        Version::First => false,
        Version::Second => is_word(word, b"keep"),
    }
}

// Whether that word comes next; then it is passed.
#[tactic(auto, using(crate::proofs::Keeping::none_kept, crate::proofs::Keeping::kept_word))]
fn skip_keep(version: Version, words: &mut Words) -> bool
    ensures { Some (Ok result, words.new) ≡ read_keep version words.old }
{
    match version {
        Version::First => false,
        Version::Second => words.skip(b"keep"),
    }
}

// The size of a lane, where one is written, and its mark.
fn read_lane_size(
    version: Version,
    words: &mut Words,
) -> Result<PlaceValue<(LaneMark, bool)>, FormEnd>
    ensures { Reads result (read_lane_size version words.old) words.new }
{
    let Some(word) = words.next() else {
        return Ok(Ok((bare_lane(version), false)));
    };
    if is_keep(version, word) {
        return Ok(Ok((bare_lane(version), true)));
    }
    let size = size_place(word).map(LaneMark::Own);
    let keep = skip_keep(version, words);
    Ok(both(size, Ok(keep)))
}

fn wire_from(
    parts: PlaceValue<((Line, PortMark), ((Line, PortMark), (LaneMark, bool)))>,
) -> PlaceValue<WireText>
    ensures { result ≡ at_map wire_from parts }
{
    match parts {
        Ok(((from, output), ((to, input), (lane, keep)))) => Ok(WireText {
            from,
            output,
            to,
            input,
            lane,
            keep,
        }),
        Err(kind) => Err(kind),
    }
}

// A wire's two ends and its lane.
pub(crate) fn read_wire(
    alloc: Global,
    version: Version,
    words: &mut Words,
) -> Result<PlaceValue<WireText>, FormEnd>
    ensures { Reads result (read_wire version words.old) words.new }
{
    let start = read_port_place(alloc, version, words)?;
    let end = read_end(alloc, version, words)?;
    let lane = read_lane(version, words)?;
    Ok(wire_from(both(start, both(end, lane))))
}

// An instance: its name, that of its module, and what it sets.
pub(crate) fn read_use(alloc: Global, words: &mut Words) -> Result<PlaceValue<UseText>, FormEnd>
    ensures { Reads result (read_use words.old) words.new }
{
    let name = words.name(alloc)?;
    let of = words.name(alloc)?;
    let attrs = read_attrs(words)?;
    Ok(both(name, both(of, attrs)).map(|(name, (of, attrs))| UseText { name, of, attrs }))
}

// The place that a port of a module stands for, behind `=`.
fn read_behind(alloc: Global, words: &mut Words) -> Result<PlaceValue<(Line, PortMark)>, FormEnd>
    ensures { Reads result (read_behind words.old) words.new }
{
    if words.skip(b"=") {
        read_port_place(alloc, Version::Second, words)
    } else {
        Err(FormEnd::BadLine)
    }
}

fn port_from(output: bool, parts: PlaceValue<(Line, (Line, PortMark))>) -> PlaceValue<PortDecl>
    ensures { result ≡ at_map (port_from output) parts }
{
    match parts {
        Ok((name, (node, port))) => Ok(PortDecl {
            output,
            name,
            node,
            port,
        }),
        Err(kind) => Err(kind),
    }
}

// A port of a module: its name, and its place.
pub(crate) fn read_port(
    alloc: Global,
    output: bool,
    words: &mut Words,
) -> Result<PlaceValue<PortDecl>, FormEnd>
    ensures { Reads result (read_port output words.old) words.new }
{
    let name = words.name(alloc)?;
    let place = read_behind(alloc, words)?;
    Ok(port_from(output, both(name, place)))
}
