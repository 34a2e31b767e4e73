// What one line declares.
ghost use Rattle.std.specs.Prelude.{◌≡◌, IfOk};
ghost use Rattle.blue_words.specs.Reading.{Reads, ReadsAs, at_map, said};
ghost use Rattle.blue_kinds.specs.Kinds.{source_kind, sink_kind};
ghost use Rattle.blue_modules.specs.Text.{plain_chain_text};
ghost use Rattle.blue_lang.specs.Declarations.{undecided, read_decided, read_node, chain_words, read_opening, inner_declaration, module_declaration, later_declaration, wire_declaration, node_declaration, declaration, read_whole};
ghost use Rattle.blue_lang.specs.Plain.{plain_declaration};

use crate::attrs::{read_attrs, read_some_attrs};
use crate::places::{read_port, read_use, read_wire};
use blue_kinds::decider::{may_decide, read_decider};
use blue_kinds::edges::read_stage_in;
use blue_kinds::kinds::{read_sink, read_source};
use blue_kinds::steps::read_steps;
use blue_modules::text::{Attrs, ChainText, Entry, NodeText, PortDecl};
use blue_words::fault::{BlueKind, FormEnd, PlaceValue, Version};
use blue_words::places::both;
use blue_words::words::{Words, is_word};
use elem_core::line::Line;
use elem_core::why::{Decider, NoMemory};
use std::alloc::{AllocError, Global};
use stream_model::kind::Kind;

/// What a line declares.
#[derive(Drop)]
pub(crate) enum Declaration {
    /// What is set for the whole text.
    Default(Attrs),
    /// A switch, by its name.
    Switch(Line),
    /// A chain.
    Chain(ChainText),
    /// The beginning of a module: its name, and what it sets.
    Opens(Line, Attrs),
    /// A port of the module.
    Port(PortDecl),
    /// A node, an instance or a wire of a body.
    Part(Entry),
    /// The end of the module.
    Ends,
}

// Choice: docs/DECISIONS.md#version-is-a-parameter
// The declaration that a first word and those behind it say in a text of that version, or what is wrong with them.
pub(crate) fn read_declaration(
    alloc: Global,
    version: Version,
    word: &[u8],
    words: &mut Words,
) -> Result<PlaceValue<Declaration>, NoMemory>
    ensures { IfOk result (λ p. at_map plain_declaration p ≡ read_whole (declaration version word.now words.old)) }
{
    match read_words(alloc, version, word, words) {
        Ok(place) => {
            if words.is_empty() {
                Ok(place)
            } else {
                Ok(Err(BlueKind::BadLine))
            }
        }
        Err(FormEnd::BadLine) => Ok(Err(BlueKind::BadLine)),
        Err(FormEnd::NoMemory) => Err(AllocError),
    }
}

// A declaration, by its first word and those behind it: switches and chains first.
fn read_words(
    alloc: Global,
    version: Version,
    word: &[u8],
    words: &mut Words,
) -> Result<PlaceValue<Declaration>, FormEnd>
    ensures { ReadsAs plain_declaration result (declaration version word.now words.old) words.new }
{
    if is_word(word, b"switch") {
        return Ok(words.name(alloc)?.map(Declaration::Switch));
    }
    if is_word(word, b"chain") {
        return Ok(read_chain(alloc, version, words)?.map(Declaration::Chain));
    }
    read_node_words(alloc, version, word, words)
}

// Nodes, and then wires.
fn read_node_words(
    alloc: Global,
    version: Version,
    word: &[u8],
    words: &mut Words,
) -> Result<PlaceValue<Declaration>, FormEnd>
    ensures { ReadsAs plain_declaration result (node_declaration version word.now words.old) words.new }
{
    if is_word(word, b"source") {
        let node = read_source_node(alloc, words)?;
        return Ok(node.map(|node| Declaration::Part(Entry::Node(node))));
    }
    if is_word(word, b"stage") {
        let node = read_stage_node(alloc, version, words)?;
        return Ok(node.map(|node| Declaration::Part(Entry::Node(node))));
    }
    if is_word(word, b"sink") {
        let node = read_sink_node(alloc, words)?;
        return Ok(node.map(|node| Declaration::Part(Entry::Node(node))));
    }
    read_wire_words(alloc, version, word, words)
}

// Wires, and then what only version 2 has.
fn read_wire_words(
    alloc: Global,
    version: Version,
    word: &[u8],
    words: &mut Words,
) -> Result<PlaceValue<Declaration>, FormEnd>
    ensures { ReadsAs plain_declaration result (wire_declaration version word.now words.old) words.new }
{
    if is_word(word, b"wire") {
        let wire = read_wire(alloc, version, words)?;
        return Ok(wire.map(|wire| Declaration::Part(Entry::Wire(wire))));
    }
    read_later_words(alloc, version, word, words)
}

fn read_later_words(
    alloc: Global,
    version: Version,
    word: &[u8],
    words: &mut Words,
) -> Result<PlaceValue<Declaration>, FormEnd>
    ensures { ReadsAs plain_declaration result (later_declaration version word.now words.old) words.new }
{
    match version {
        Version::First => Err(FormEnd::BadLine),
        Version::Second => read_module_words(alloc, word, words),
    }
}

fn read_module_words(
    alloc: Global,
    word: &[u8],
    words: &mut Words,
) -> Result<PlaceValue<Declaration>, FormEnd>
    ensures { ReadsAs plain_declaration result (module_declaration word.now words.old) words.new }
{
    if is_word(word, b"default") {
        return Ok(read_some_attrs(words)?.map(Declaration::Default));
    }
    if is_word(word, b"module") {
        let opening = read_opening(alloc, words)?;
        return Ok(opening.map(|(name, attrs)| Declaration::Opens(name, attrs)));
    }
    if is_word(word, b"use") {
        let instance = read_use(alloc, words)?;
        return Ok(instance.map(|instance| Declaration::Part(Entry::Instance(instance))));
    }
    read_inner_words(alloc, word, words)
}

// What stands in modules alone.
fn read_inner_words(
    alloc: Global,
    word: &[u8],
    words: &mut Words,
) -> Result<PlaceValue<Declaration>, FormEnd>
    ensures { ReadsAs plain_declaration result (inner_declaration word.now words.old) words.new }
{
    if is_word(word, b"in") {
        return Ok(read_port(alloc, false, words)?.map(Declaration::Port));
    }
    if is_word(word, b"out") {
        return Ok(read_port(alloc, true, words)?.map(Declaration::Port));
    }
    if is_word(word, b"end") {
        return Ok(Ok(Declaration::Ends));
    }
    Err(FormEnd::BadLine)
}

// A module's name, and what it sets.
fn read_opening(alloc: Global, words: &mut Words) -> Result<PlaceValue<(Line, Attrs)>, FormEnd>
    ensures { Reads result (read_opening words.old) words.new }
{
    let name = words.name(alloc)?;
    let attrs = read_attrs(words)?;
    Ok(both(name, attrs))
}

fn read_chain(
    alloc: Global,
    version: Version,
    words: &mut Words,
) -> Result<PlaceValue<ChainText>, FormEnd>
    ensures { ReadsAs plain_chain_text result (chain_words version words.old) words.new }
{
    let name = words.name(alloc)?;
    let steps = read_steps(alloc, version, words)?;
    Ok(both(name, steps).map(|(name, steps)| ChainText { name, steps }))
}

fn read_source_node(alloc: Global, words: &mut Words) -> Result<PlaceValue<NodeText>, FormEnd>
    ensures { Reads result (read_node (undecided source_kind) words.old) words.new }
{
    let name = words.name(alloc)?;
    let kind = read_source_kind(alloc, words)?;
    Ok(both(name, kind).map(|(name, (kind, decider))| NodeText {
        name,
        kind,
        decider,
    }))
}

fn read_source_kind(
    alloc: Global,
    words: &mut Words,
) -> Result<PlaceValue<(Kind, Option<Decider>)>, FormEnd>
    ensures { Reads result (undecided source_kind words.old) words.new }
{
    let Some(word) = words.next() else {
        return Err(FormEnd::BadLine);
    };
    let kind = read_source(alloc, word, words)?;
    Ok(kind.map(|kind| (kind, None)))
}

fn read_sink_node(alloc: Global, words: &mut Words) -> Result<PlaceValue<NodeText>, FormEnd>
    ensures { Reads result (read_node (undecided sink_kind) words.old) words.new }
{
    let name = words.name(alloc)?;
    let kind = read_sink_kind(alloc, words)?;
    Ok(both(name, kind).map(|(name, (kind, decider))| NodeText {
        name,
        kind,
        decider,
    }))
}

fn read_sink_kind(
    alloc: Global,
    words: &mut Words,
) -> Result<PlaceValue<(Kind, Option<Decider>)>, FormEnd>
    ensures { Reads result (undecided sink_kind words.old) words.new }
{
    let Some(word) = words.next() else {
        return Err(FormEnd::BadLine);
    };
    let kind = read_sink(alloc, word, words)?;
    Ok(kind.map(|kind| (kind, None)))
}

fn read_stage_node(
    alloc: Global,
    version: Version,
    words: &mut Words,
) -> Result<PlaceValue<NodeText>, FormEnd>
    ensures { Reads result (read_node (read_decided version) words.old) words.new }
{
    let name = words.name(alloc)?;
    let kind = read_decided(alloc, version, words)?;
    Ok(both(name, kind).map(|(name, (kind, decider))| NodeText {
        name,
        kind,
        decider,
    }))
}

// A stage's kind and its decider.
fn read_decided(
    alloc: Global,
    version: Version,
    words: &mut Words,
) -> Result<PlaceValue<(Kind, Option<Decider>)>, FormEnd>
    ensures { Reads result (read_decided version words.old) words.new }
{
    let Some(word) = words.next() else {
        return Err(FormEnd::BadLine);
    };
    let kind = read_stage_in(alloc, version, word, words)?;
    let decider = read_decider(version, may_decide(word), words)?;
    Ok(both(kind, decider))
}
