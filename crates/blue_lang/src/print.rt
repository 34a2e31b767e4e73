// The canonical text of what a text says.
ghost use Rattle.std.specs.Prelude.{◌≡◌, ◌++◌, ◌∷◌, [], map, OnOk, IfOk, codes};
ghost use Rattle.std.specs.List.{flat_map};
ghost use Rattle.blue_modules.specs.Text.{plain_module, plain_chain_text, plain_text};
ghost use Rattle.blue_lang.specs.Spaced.{spaced};
ghost use Rattle.blue_lang.specs.Kinds.{kind_words, sort_word, decider_words};
ghost use Rattle.blue_lang.specs.Declarations.{switch, chain, port, part};
ghost use Rattle.blue_lang.specs.Canonical.{size_words, attrs_words, mark_word, place_word, keep_words, lane_words, step_words, later_words, steps_words, direction_word, port_words, entry_words, declaration_words, sets_some, default_lines, module_lines, line_text, declared_text, canonical};

use crate::kinds::{sort_word, write_decider, write_kind};
use crate::words::{write_word, write_word_count};
use blue_modules::text::{
    Attrs, BlueText, ChainText, Entry, LaneMark, Module, NodeText, PortDecl, PortMark, StepText,
    UseText, WireText,
};
use elem_core::line::Line;
use elem_core::why::{Decider, NoMemory};
use itoa::Buffer;
use std::alloc::Global;
use stream_model::kind::Kind;

/// The canonical text, of version 2, so printing migrates: the version line, what is set for the whole text, switches, chains,
/// modules, and the text's own body, each in its order; one space between words, numbers without leading zeros, a decider where one
/// was written.
/// Akka Streams has no text for a graph, so its form is this project's.
pub fn print(alloc: Global, text: &BlueText) -> Result<Vec<u8>, NoMemory>
    ensures { IfOk result (λ bytes. bytes.items ≡ canonical (plain_text text.now)) }
{
    let mut out = Vec::new(alloc);
    out.extend_from_slice(b"streams 2\n")?;
    print_default(&mut out, text.attrs)?;
    print_switches(&mut out, &text.switches)?;
    print_chains(&mut out, &text.chains)?;
    print_modules(&mut out, &text.modules)?;
    print_entries(&mut out, &text.body)?;
    Ok(out)
}

// Whether something is set.
fn sets_some(attrs: Attrs) -> bool
    ensures { result ≡ sets_some attrs }
{
    attrs.size.is_some() || attrs.decider.is_some()
}

#[tactic(auto, using(crate::proofs::Printing::declared_one))]
fn print_default(out: &mut Vec<u8>, attrs: Attrs) -> Result<(), NoMemory>
    ensures { OnOk result (out.new.items ≡ out.old.items ++ declared_text (default_lines attrs)) }
{
    if sets_some(attrs) {
        print_setting(out, attrs)
    } else {
        Ok(())
    }
}

fn print_setting(out: &mut Vec<u8>, attrs: Attrs) -> Result<(), NoMemory>
    ensures { OnOk result (out.new.items ≡ out.old.items ++ line_text (codes "default" ∷ attrs_words attrs)) }
{
    out.extend_from_slice(b"default")?;
    print_attrs(out, attrs)?;
    out.push(b'\n')?;
    Ok(())
}

fn print_attrs(out: &mut Vec<u8>, attrs: Attrs) -> Result<(), NoMemory>
    ensures { OnOk result (out.new.items ≡ out.old.items ++ spaced (attrs_words attrs)) }
{
    print_size(out, attrs.size)?;
    write_decider(out, attrs.decider)?;
    Ok(())
}

fn print_size(out: &mut Vec<u8>, size: Option<u32>) -> Result<(), NoMemory>
    ensures { OnOk result (out.new.items ≡ out.old.items ++ spaced (size_words size)) }
{
    match size {
        Some(size) => write_word_count(out, b"async", u64::from(size)),
        None => Ok(()),
    }
}

fn print_switches(out: &mut Vec<u8>, switches: &[Line]) -> Result<(), NoMemory>
    ensures { OnOk result (out.new.items ≡ out.old.items ++ declared_text (map switch switches.now)) }
{
    for switch in switches {
        print_switch(out, switch)?;
    }
    Ok(())
}

fn print_switch(out: &mut Vec<u8>, switch: &Line) -> Result<(), NoMemory>
    ensures { OnOk result (out.new.items ≡ out.old.items ++ line_text (codes "switch" ∷ switch.now ∷ [])) }
{
    out.extend_from_slice(b"switch")?;
    write_word(out, switch.bytes())?;
    out.push(b'\n')?;
    Ok(())
}

fn print_chains(out: &mut Vec<u8>, chains: &[ChainText]) -> Result<(), NoMemory>
    ensures { OnOk result (out.new.items ≡ out.old.items ++ declared_text (map chain (map plain_chain_text chains.now))) }
{
    for chain in chains {
        print_chain(out, chain)?;
    }
    Ok(())
}

fn print_chain(out: &mut Vec<u8>, chain: &ChainText) -> Result<(), NoMemory>
    ensures { OnOk result (out.new.items ≡ out.old.items ++ line_text (codes "chain" ∷ (plain_chain_text chain.now).name
        ∷ steps_words (plain_chain_text chain.now).steps)) }
{
    out.extend_from_slice(b"chain")?;
    write_word(out, chain.name.bytes())?;
    print_steps(out, &chain.steps)?;
    out.push(b'\n')?;
    Ok(())
}

fn print_steps(out: &mut Vec<u8>, steps: &[StepText]) -> Result<(), NoMemory>
    ensures { OnOk result (out.new.items ≡ out.old.items ++ spaced (steps_words steps.now)) }
{
    match steps.split_first() {
        Some((first, rest)) => {
            print_step(out, first)?;
            print_later(out, rest)?;
            Ok(())
        }
        None => Ok(()),
    }
}

fn print_later(out: &mut Vec<u8>, steps: &[StepText]) -> Result<(), NoMemory>
    ensures { OnOk result (out.new.items ≡ out.old.items ++ spaced (later_words steps.now)) }
{
    for step in steps {
        print_later_step(out, step)?;
    }
    Ok(())
}

fn print_later_step(out: &mut Vec<u8>, step: &StepText) -> Result<(), NoMemory>
    ensures { OnOk result (out.new.items ≡ out.old.items ++ spaced (codes "|" ∷ step_words step.now)) }
{
    write_word(out, b"|")?;
    print_step(out, step)
}

fn print_step(out: &mut Vec<u8>, step: &StepText) -> Result<(), NoMemory>
    ensures { OnOk result (out.new.items ≡ out.old.items ++ spaced (step_words step.now)) }
{
    print_decided(out, &step.kind, step.decider)
}

fn print_decided(out: &mut Vec<u8>, kind: &Kind, decider: Option<Decider>) -> Result<(), NoMemory>
    ensures { OnOk result (out.new.items ≡ out.old.items ++ spaced (kind_words kind.now ++ decider_words decider)) }
{
    write_kind(out, kind)?;
    write_decider(out, decider)?;
    Ok(())
}

fn print_modules(out: &mut Vec<u8>, modules: &[Module]) -> Result<(), NoMemory>
    ensures { OnOk result (out.new.items ≡ out.old.items ++ declared_text (flat_map module_lines (map plain_module modules.now))) }
{
    for of in modules {
        print_module(out, of)?;
    }
    Ok(())
}

// A module: its line, its ports, its body and its end.
fn print_module(out: &mut Vec<u8>, of: &Module) -> Result<(), NoMemory>
    ensures { OnOk result (out.new.items ≡ out.old.items ++ declared_text (module_lines (plain_module of.now))) }
{
    print_opening(out, &of.name, of.attrs)?;
    print_ports(out, &of.ports)?;
    print_entries(out, &of.body)?;
    out.extend_from_slice(b"end\n")?;
    Ok(())
}

fn print_opening(out: &mut Vec<u8>, name: &Line, attrs: Attrs) -> Result<(), NoMemory>
    ensures { OnOk result (out.new.items ≡ out.old.items ++ line_text (codes "module" ∷ name.now ∷ attrs_words attrs)) }
{
    out.extend_from_slice(b"module")?;
    write_word(out, name.bytes())?;
    print_attrs(out, attrs)?;
    out.push(b'\n')?;
    Ok(())
}

fn print_ports(out: &mut Vec<u8>, ports: &[PortDecl]) -> Result<(), NoMemory>
    ensures { OnOk result (out.new.items ≡ out.old.items ++ declared_text (map port ports.now)) }
{
    for port in ports {
        print_port(out, port)?;
    }
    Ok(())
}

fn direction_word(output: bool) -> &'static [u8]
    ensures { result.now ≡ direction_word output }
{
    if output { b"out" } else { b"in" }
}

fn print_port(out: &mut Vec<u8>, port: &PortDecl) -> Result<(), NoMemory>
    ensures { OnOk result (out.new.items ≡ out.old.items ++ line_text (port_words port.now)) }
{
    out.extend_from_slice(direction_word(port.output))?;
    write_word(out, port.name.bytes())?;
    write_word(out, b"=")?;
    print_place(out, &port.node, &port.port)?;
    out.push(b'\n')?;
    Ok(())
}

fn print_entries(out: &mut Vec<u8>, entries: &[Entry]) -> Result<(), NoMemory>
    ensures { OnOk result (out.new.items ≡ out.old.items ++ declared_text (map part entries.now)) }
{
    for entry in entries {
        print_entry(out, entry)?;
    }
    Ok(())
}

fn print_entry(out: &mut Vec<u8>, entry: &Entry) -> Result<(), NoMemory>
    ensures { OnOk result (out.new.items ≡ out.old.items ++ line_text (entry_words entry.now)) }
{
    match entry {
        Entry::Node(node) => print_node(out, node),
        Entry::Instance(instance) => print_use(out, instance),
        Entry::Wire(wire) => print_wire(out, wire),
    }
}

fn print_node(out: &mut Vec<u8>, node: &NodeText) -> Result<(), NoMemory>
    ensures { OnOk result (out.new.items ≡ out.old.items ++ line_text (sort_word (node.now).kind ∷ (node.now).name
        ∷ (kind_words (node.now).kind ++ decider_words (node.now).decider))) }
{
    out.extend_from_slice(sort_word(&node.kind))?;
    write_word(out, node.name.bytes())?;
    print_decided(out, &node.kind, node.decider)?;
    out.push(b'\n')?;
    Ok(())
}

fn print_use(out: &mut Vec<u8>, instance: &UseText) -> Result<(), NoMemory>
    ensures { OnOk result (out.new.items ≡ out.old.items ++ line_text (codes "use" ∷ (instance.now).name ∷ (instance.now).of
        ∷ attrs_words (instance.now).attrs)) }
{
    out.extend_from_slice(b"use")?;
    write_word(out, instance.name.bytes())?;
    write_word(out, instance.of.bytes())?;
    print_attrs(out, instance.attrs)?;
    out.push(b'\n')?;
    Ok(())
}

fn print_wire(out: &mut Vec<u8>, wire: &WireText) -> Result<(), NoMemory>
    ensures { OnOk result (out.new.items ≡ out.old.items ++ line_text (codes "wire" ∷ place_word (wire.now).from (wire.now).output ∷ codes "->"
        ∷ place_word (wire.now).to (wire.now).input ∷ lane_words (wire.now).lane (wire.now).keep)) }
{
    out.extend_from_slice(b"wire")?;
    print_place(out, &wire.from, &wire.output)?;
    write_word(out, b"->")?;
    print_place(out, &wire.to, &wire.input)?;
    print_lane(out, wire.lane, wire.keep)?;
    out.push(b'\n')?;
    Ok(())
}

fn print_place(out: &mut Vec<u8>, name: &Line, mark: &PortMark) -> Result<(), NoMemory>
    ensures { OnOk result (out.new.items ≡ out.old.items ++ spaced (place_word name.now mark.now ∷ [])) }
{
    write_word(out, name.bytes())?;
    out.push(b'.')?;
    print_mark(out, mark)
}

fn print_mark(out: &mut Vec<u8>, mark: &PortMark) -> Result<(), NoMemory>
    ensures { OnOk result (out.new.items ≡ out.old.items ++ mark_word mark.now) }
{
    match mark {
        PortMark::Num(number) => {
            let mut buffer = Buffer::new();
            out.extend_from_slice(buffer.format(*number).as_bytes())
        }
        PortMark::Name(name) => out.extend_from_slice(name.bytes()),
    }
}

fn print_lane(out: &mut Vec<u8>, lane: LaneMark, keep: bool) -> Result<(), NoMemory>
    ensures { OnOk result (out.new.items ≡ out.old.items ++ spaced (lane_words lane keep)) }
{
    match lane {
        LaneMark::Fused => return Ok(()),
        LaneMark::Inherited => write_word(out, b"async")?,
        LaneMark::Own(size) => write_word_count(out, b"async", u64::from(size))?,
    }
    print_keep(out, keep)
}

fn print_keep(out: &mut Vec<u8>, keep: bool) -> Result<(), NoMemory>
    ensures { OnOk result (out.new.items ≡ out.old.items ++ spaced (keep_words keep)) }
{
    if keep {
        write_word(out, b"keep")
    } else {
        Ok(())
    }
}
