// What is taken twice: names, files, plugs and custom stages.
ghost use Rattle.std.specs.Prelude.{◌≡◌, ℕ, List, [], ◌∷◌, ◌++◌, IfOk, OnOk, map, not};
ghost use Rattle.std.specs.List.{list_any};
ghost use Rattle.std.specs.Option.{option_map, option_or};
ghost use Rattle.blue_names.specs.Names.{Claim as Taking, same_claim, first_again, text_of, claims_of_nodes, guests_of_nodes, taken_twice, guest_twice, called, opens, hires, opening, claiming, file_of, plug_of};
ghost use Rattle.blue_names.specs.Claims.{claim_of, Knows};
ghost use Rattle.blue_names.specs.CustomPorts.{custom_of};
ghost use Rattle.stream_model.specs.Known.{head_shape};

use crate::custom_ports::custom_of;
use crate::table::{NameTable, note_name};
use elem_core::line::Line;
use elem_core::why::NoMemory;
use std::alloc::Global;
use std::collections::HashMap;
use stream_model::blueprint::{ChainDecl, Node};
use stream_model::head::{CustomHead, PlugHead};
use stream_model::kind::Kind;
use stream_model::known::Heads;

/// What a declaration takes for itself.
#[derive(Clone, Copy)]
pub enum NameClaim<'a> {
    /// A name.
    Called(&'a Line),
    /// A file.
    Opens(&'a Line),
    /// A custom stage that is handed in.
    Hires(&'a Line),
}

/// The names, files and custom stages that are taken so far.
#[derive(Drop)]
pub struct Taken<'a> {
    /// The names.
    pub names: NameTable<'a>,
    /// The files.
    pub files: NameTable<'a>,
    /// The custom stages.
    pub customs: NameTable<'a>,
}

impl<'a> NameClaim<'a> {
    /// Its text.
    pub fn line(self) -> &'a Line
        ensures { result.now ≡ text_of (claim_of self.entry) }
    {
        match self {
            NameClaim::Called(line) => line,
            NameClaim::Opens(line) => line,
            NameClaim::Hires(line) => line,
        }
    }
}

impl<'a> Taken<'a> {
    ghost use Rattle.blue_names.specs.Claims.{claim_of, Knows};

    /// Nothing is taken.
    pub fn new(alloc: Global) -> Self
        ensures { Knows result.names result.files result.customs [] }
    {
        Taken {
            names: HashMap::new(alloc),
            files: HashMap::new(alloc),
            customs: HashMap::new(alloc),
        }
    }

    /// Takes what is claimed, and says whether it was free.
    pub fn take(&mut self, claim: NameClaim<'a>) -> Result<bool, NoMemory>
        ensures free { (before : List Taking) → Knows self.old.names self.old.files self.old.customs before
            → IfOk result (λ free. free ≡ not (list_any (same_claim (claim_of claim.entry)) before)) }
        ensures taken { (before : List Taking) → Knows self.old.names self.old.files self.old.customs before
            → OnOk result (Knows self.new.names self.new.files self.new.customs (claim_of claim.entry ∷ before)) }
    {
        match claim {
            NameClaim::Called(name) => note_name(&mut self.names, name, 0),
            NameClaim::Opens(file) => note_name(&mut self.files, file, 0),
            NameClaim::Hires(name) => note_name(&mut self.customs, name, 0),
        }
    }
}

/// The files that are taken by others.
fn taken_files<'a>(alloc: Global, files: &'a [Line]) -> Result<Taken<'a>, NoMemory>
    ensures { IfOk result (λ taken. Knows taken.names taken.files taken.customs (map opens files.now)) }
{
    let mut taken = Taken::new(alloc);
    for file in files {
        let _ = taken.take(NameClaim::Opens(file))?;
    }
    Ok(taken)
}

/// The text of the first claim that was made before, also by these files.
fn first_again<'a>(
    alloc: Global,
    files: &'a [Line],
    claims: &[NameClaim<'a>],
) -> Result<Option<&'a Line>, NoMemory>
    ensures { IfOk result (λ again. option_map (λ l. l.now) again ≡ first_again (map opens files.now) (map claim_of claims.now)) }
{
    let mut taken = taken_files(alloc, files)?;
    for claim in claims {
        if !taken.take(*claim)? {
            return Ok(Some(claim.line()));
        }
    }
    Ok(None)
}

/// The file that a source or a sink opens.
pub fn file_of(kind: &Kind) -> Option<&Line>
    ensures { option_map (λ l. l.now) result ≡ file_of kind.now }
{
    match kind {
        Kind::Lines(file) | Kind::ToLines(file) | Kind::Head(file) | Kind::Last(file) => Some(file),
        _ => None,
    }
}

/// The plug that a node names.
pub fn plug_of(kind: &Kind) -> Option<&Line>
    ensures { option_map (λ l. l.now) result ≡ plug_of kind.now }
{
    match kind {
        Kind::Plug(name) => Some(name),
        _ => None,
    }
}

/// Adds the names of the switches.
fn add_switches<'a>(claims: &mut Vec<NameClaim<'a>>, switches: &'a [Line]) -> Result<(), NoMemory>
    ensures { OnOk result (map claim_of claims.new.items ≡ map claim_of claims.old.items ++ map called switches.now) }
{
    for name in switches {
        claims.push(NameClaim::Called(name))?;
    }
    Ok(())
}

/// Adds the names of the chains.
fn add_chains<'a>(claims: &mut Vec<NameClaim<'a>>, chains: &'a [ChainDecl]) -> Result<(), NoMemory>
    ensures { OnOk result (map claim_of claims.new.items ≡ map claim_of claims.old.items ++ map (λ c. called c.name) chains.now) }
{
    for chain in chains {
        claims.push(NameClaim::Called(&chain.name))?;
    }
    Ok(())
}

/// Adds the names of the plugs.
fn add_plugs<'a>(claims: &mut Vec<NameClaim<'a>>, plugs: &'a [PlugHead]) -> Result<(), NoMemory>
    ensures { OnOk result (map claim_of claims.new.items ≡ map claim_of claims.old.items ++ map (λ p. called p.name) plugs.now) }
{
    for plug in plugs {
        claims.push(NameClaim::Called(&plug.name))?;
    }
    Ok(())
}

/// Adds the names of the custom stages.
fn add_customs<'a>(
    claims: &mut Vec<NameClaim<'a>>,
    customs: &'a [CustomHead],
) -> Result<(), NoMemory>
    ensures { OnOk result (map claim_of claims.new.items ≡ map claim_of claims.old.items ++ map (λ c. hires c.name) (map head_shape customs.now)) }
{
    for custom in customs {
        claims.push(NameClaim::Hires(&custom.name))?;
    }
    Ok(())
}

/// Adds a file, where there is one.
fn add_file<'a>(claims: &mut Vec<NameClaim<'a>>, file: Option<&'a Line>) -> Result<(), NoMemory>
    ensures { (rest : List Taking) → OnOk result (map claim_of claims.new.items ++ rest ≡ map claim_of claims.old.items
        ++ opening (option_map (λ l. l.now) file.entry) rest) }
{
    if let Some(file) = file {
        claims.push(NameClaim::Opens(file))?;
    }
    Ok(())
}

/// Adds a plug that is named, or else a custom stage.
fn add_guest<'a>(
    claims: &mut Vec<NameClaim<'a>>,
    plug: Option<&'a Line>,
    custom: Option<&'a Line>,
) -> Result<(), NoMemory>
    ensures { (rest : List Taking) → OnOk result (map claim_of claims.new.items ++ rest ≡ map claim_of claims.old.items
        ++ claiming (option_map (λ l. l.now) plug.entry) (option_map (λ l. l.now) custom.entry) rest) }
{
    if let Some(name) = plug {
        claims.push(NameClaim::Called(name))?;
    } else if let Some(name) = custom {
        claims.push(NameClaim::Hires(name))?;
    }
    Ok(())
}

/// Adds the names and the files of the nodes.
fn add_nodes<'a>(claims: &mut Vec<NameClaim<'a>>, nodes: &'a [Node]) -> Result<(), NoMemory>
    ensures { OnOk result (map claim_of claims.new.items ≡ map claim_of claims.old.items ++ claims_of_nodes nodes.now) }
{
    for node in nodes {
        claims.push(NameClaim::Called(&node.name))?;
        add_file(claims, file_of(&node.kind))?;
    }
    Ok(())
}

/// Adds the plugs and the custom stages that the nodes name.
fn add_uses<'a>(claims: &mut Vec<NameClaim<'a>>, nodes: &'a [Node]) -> Result<(), NoMemory>
    ensures { OnOk result (map claim_of claims.new.items ≡ map claim_of claims.old.items ++ guests_of_nodes nodes.now) }
{
    for node in nodes {
        add_guest(claims, plug_of(&node.kind), custom_of(&node.kind))?;
    }
    Ok(())
}

/// The first name or file that is taken twice: a file also where others took it.
pub fn taken_twice<'a>(
    alloc: Global,
    switches: &'a [Line],
    chains: &'a [ChainDecl],
    nodes: &'a [Node],
    files: &'a [Line],
) -> Result<Option<&'a Line>, NoMemory>
    ensures { IfOk result (λ again. option_map (λ l. l.now) again ≡ taken_twice switches.now chains.now nodes.now files.now) }
{
    let mut claims = Vec::new(alloc);
    add_switches(&mut claims, switches)?;
    add_chains(&mut claims, chains)?;
    add_nodes(&mut claims, nodes)?;
    first_again(alloc, files, &claims)
}

/// The first name that two plugs have.
fn named_twice<'a>(alloc: Global, plugs: &'a [PlugHead]) -> Result<Option<&'a Line>, NoMemory>
    ensures { IfOk result (λ again. option_map (λ l. l.now) again ≡ first_again [] (map (λ p. called p.name) plugs.now)) }
{
    let mut claims = Vec::new(alloc);
    add_plugs(&mut claims, plugs)?;
    first_again(alloc, &[], &claims)
}

/// The first name that two custom stages have.
fn hired_twice<'a>(alloc: Global, customs: &'a [CustomHead]) -> Result<Option<&'a Line>, NoMemory>
    ensures { IfOk result (λ again. option_map (λ l. l.now) again ≡ first_again [] (map (λ c. hires c.name) (map head_shape customs.now))) }
{
    let mut claims = Vec::new(alloc);
    add_customs(&mut claims, customs)?;
    first_again(alloc, &[], &claims)
}

/// The first plug or custom stage that two nodes name.
fn used_twice<'a>(alloc: Global, nodes: &'a [Node]) -> Result<Option<&'a Line>, NoMemory>
    ensures { IfOk result (λ again. option_map (λ l. l.now) again ≡ first_again [] (guests_of_nodes nodes.now)) }
{
    let mut claims = Vec::new(alloc);
    add_uses(&mut claims, nodes)?;
    first_again(alloc, &[], &claims)
}

/// The first name that two plugs have, or else one that two custom stages have, or else the first plug or custom stage that two nodes
/// name.
pub fn guest_twice<'a>(
    alloc: Global,
    heads: &Heads<'a>,
    nodes: &'a [Node],
) -> Result<Option<&'a Line>, NoMemory>
    ensures { IfOk result (λ again. option_map (λ l. l.now) again ≡ guest_twice heads.now nodes.now) }
{
    if let Some(name) = named_twice(alloc, heads.plugs())? {
        return Ok(Some(name));
    }
    match hired_twice(alloc, heads.customs())? {
        Some(name) => Ok(Some(name)),
        None => used_twice(alloc, nodes),
    }
}
