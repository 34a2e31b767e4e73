// What is handed in and the chains that nodes name.
ghost use Rattle.std.specs.Prelude.{◌≡◌, IfOk, map, slice_get};
ghost use Rattle.std.specs.Option.{option_map};
ghost use Rattle.blue_names.specs.StageTypes.{plug_named, chain_named};
ghost use Rattle.blue_types.specs.Library.{IsKnown};

use blue_names::table::{NameTable, find, table_of};
use elem_core::line::Line;
use elem_core::why::NoMemory;
use std::alloc::Global;
use stream_model::blueprint::{ChainDecl, Step};
use stream_model::head::PlugHead;
use stream_model::known::Heads;

/// What is handed in and the chains, with the places of plugs and chains by name.
#[derive(Drop)]
pub struct Library<'a> {
    /// What is handed in.
    pub heads: &'a Heads<'a>,
    /// The places of the plugs.
    pub plug_places: NameTable<'a>,
    /// The chains of the blueprint.
    pub chains: &'a [ChainDecl],
    /// The places of the chains.
    pub chain_places: NameTable<'a>,
}

impl<'a> Library<'a> {
    ghost use Rattle.blue_types.specs.Library.{IsKnown};

    /// The library of these heads and chains.
    pub fn new(
        alloc: Global,
        heads: &'a Heads<'a>,
        chains: &'a [ChainDecl],
    ) -> Result<Self, NoMemory>
        ensures known { IfOk result IsKnown }
        ensures heads { IfOk result (λ l. l.heads.now ≡ heads.now) }
        ensures chains { IfOk result (λ l. l.chains.now ≡ chains.now) }
    {
        let plug_places = table_of(alloc, heads.plugs())?;
        let chain_places = table_of(alloc, chains)?;
        Ok(Library {
            heads,
            plug_places,
            chains,
            chain_places,
        })
    }
}

/// The plug at a place.
fn plug_at(plugs: &[PlugHead], i: usize) -> Option<&PlugHead>
    ensures { option_map (λ p. p.now) result ≡ slice_get plugs.now i }
{
    plugs.get(i)
}

/// The chain at a place.
fn chain_at(chains: &[ChainDecl], i: usize) -> Option<&ChainDecl>
    ensures { option_map (λ c. c.now) result ≡ slice_get chains.now i }
{
    chains.get(i)
}

/// The plug of that name.
pub fn plug_named<'a>(library: &Library<'a>, name: &Line) -> Option<&'a PlugHead>
    requires { IsKnown library.now }
    ensures { option_map (λ p. p.now) result ≡ plug_named name.now library.now.heads.now.plugs }
{
    match find(&library.plug_places, name) {
        Some(i) => plug_at(library.heads.plugs(), i),
        None => None,
    }
}

/// The steps of the chain of that name; none where there is no such chain.
pub fn chain_named<'a>(library: &Library<'a>, name: &Line) -> &'a [Step]
    requires { IsKnown library.now }
    ensures { result.now ≡ chain_named name.now library.now.chains.now }
{
    match find(&library.chain_places, name) {
        Some(i) => match chain_at(library.chains, i) {
            Some(chain) => &chain.steps,
            None => &[],
        },
        None => &[],
    }
}
