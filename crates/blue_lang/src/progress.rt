// What is read of a text so far, and one declaration more.
ghost use Rattle.std.specs.Prelude.{◌≡◌, OnOk, None, true, is_some, length};
ghost use Rattle.blue_lang.specs.Declarations.{part, ends};
ghost use Rattle.blue_lang.specs.Plain.{plain_declaration};
ghost use Rattle.blue_lang.specs.Progress.{sofar, context, with_declaration, with_open, none_so_far};
ghost use Rattle.blue_lang.specs.Texts.{has_room};

use crate::declarations::Declaration;
use blue_modules::limit::{MAX_MODULES, MAX_PORTS, MAX_USES};
use blue_modules::text::{Attrs, BlueText, Entry, Module};
use blue_words::fault::Version;
use elem_core::why::NoMemory;
use std::alloc::Global;
use stream_model::limit::{MAX_CHAINS, MAX_NODES, MAX_STEPS, MAX_SWITCHES, MAX_WIRES};

// What is read of a text: its version, once that line stands; what is declared so far, without the module that is open; that module;
// how many nodes, instances and wires all bodies have; and whether something is set for the whole text.
#[derive(Drop)]
pub(crate) struct Progress {
    pub(crate) version: Option<Version>,
    pub(crate) text: BlueText,
    pub(crate) opened: Option<Module>,
    pub(crate) nodes: usize,
    pub(crate) uses: usize,
    pub(crate) wires: usize,
    pub(crate) defaulted: bool,
}

// Nothing is read.
pub(crate) fn none_yet(alloc: Global) -> Progress
    ensures version { result.version ≡ None }
    ensures sofar { sofar result ≡ none_so_far }
{
    Progress {
        version: None,
        text: BlueText {
            attrs: Attrs {
                size: None,
                decider: None,
            },
            switches: Vec::new(alloc),
            chains: Vec::new(alloc),
            modules: Vec::new(alloc),
            body: Vec::new(alloc),
        },
        opened: None,
        nodes: 0,
        uses: 0,
        wires: 0,
        defaulted: false,
    }
}

// Whether the version line was read.
pub(crate) fn is_begun(progress: &Progress) -> bool
    ensures { result ≡ is_some progress.now.version }
{
    progress.version.is_some()
}

// Whether a module is open.
pub(crate) fn is_inside(progress: &Progress) -> bool
    ensures { result ≡ is_some (sofar progress.now).opened }
{
    progress.opened.is_some()
}

// How many modules there are, with the one that is open.
fn modules_so_far(progress: &Progress) -> usize
    ensures { result ≡ length (with_open (sofar progress.now).done (sofar progress.now).opened) }
{
    match progress.opened {
        Some(_) => progress.text.modules.len() + 1,
        None => progress.text.modules.len(),
    }
}

// Whether the limits allow one declaration more.
pub(crate) fn has_room(progress: &Progress, declaration: &Declaration) -> bool
    ensures { result ≡ has_room (context (sofar progress.now)) (plain_declaration declaration.now) }
{
    match declaration {
        Declaration::Switch(_) => progress.text.switches.len() < MAX_SWITCHES,
        Declaration::Chain(chain) => {
            progress.text.chains.len() < MAX_CHAINS && chain.steps.len() <= MAX_STEPS
        }
        Declaration::Opens(_, _) => modules_so_far(progress) < MAX_MODULES,
        Declaration::Port(_) => match &progress.opened {
            Some(module) => module.ports.len() < MAX_PORTS,
            None => true,
        },
        Declaration::Part(Entry::Node(_)) => progress.nodes < MAX_NODES,
        Declaration::Part(Entry::Instance(_)) => progress.uses < MAX_USES,
        Declaration::Part(Entry::Wire(_)) => progress.wires < MAX_WIRES,
        Declaration::Default(_) => true,
        Declaration::Ends => true,
    }
}

// Puts the module that is open behind the others.
fn close(progress: &mut Progress) -> Result<(), NoMemory>
    ensures version { progress.new.version ≡ progress.old.version }
    ensures closed { OnOk result (sofar progress.new ≡ with_declaration (sofar progress.old) ends) }
{
    if let Some(module) = progress.opened.take() {
        progress.text.modules.push(module)?;
    }
    Ok(())
}

fn add_entry(progress: &mut Progress, entry: Entry) -> Result<(), NoMemory>
    requires { has_room (context (sofar progress.old)) (part entry) ≡ true }
    ensures version { progress.new.version ≡ progress.old.version }
    ensures adds { OnOk result (sofar progress.new ≡ with_declaration (sofar progress.old) (part entry)) }
{
    match &entry {
        Entry::Node(_) => progress.nodes += 1,
        Entry::Instance(_) => progress.uses += 1,
        Entry::Wire(_) => progress.wires += 1,
    }
    match &mut progress.opened {
        Some(module) => module.body.push(entry)?,
        None => progress.text.body.push(entry)?,
    }
    Ok(())
}

// Adds a declaration that there is room for.
pub(crate) fn add(
    alloc: Global,
    progress: &mut Progress,
    declaration: Declaration,
) -> Result<(), NoMemory>
    requires { has_room (context (sofar progress.old)) (plain_declaration declaration) ≡ true }
    ensures version { progress.new.version ≡ progress.old.version }
    ensures adds { OnOk result (sofar progress.new ≡ with_declaration (sofar progress.old) (plain_declaration declaration)) }
{
    match declaration {
        Declaration::Default(attrs) => {
            progress.text.attrs = attrs;
            progress.defaulted = true;
            Ok(())
        }
        Declaration::Switch(name) => {
            progress.text.switches.push(name)?;
            Ok(())
        }
        Declaration::Chain(chain) => {
            progress.text.chains.push(chain)?;
            Ok(())
        }
        Declaration::Opens(name, attrs) => {
            close(progress)?;
            progress.opened = Some(Module {
                name,
                attrs,
                ports: Vec::new(alloc),
                body: Vec::new(alloc),
            });
            Ok(())
        }
        Declaration::Port(port) => {
            if let Some(module) = &mut progress.opened {
                module.ports.push(port)?;
            }
            Ok(())
        }
        Declaration::Part(entry) => add_entry(progress, entry),
        Declaration::Ends => close(progress),
    }
}
