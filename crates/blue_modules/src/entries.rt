// A body with a table of its names, so that each place of a wire is found without a walk over the body.
ghost use Rattle.std.specs.Prelude.{◌≡◌, ℕ, List, IfOk, OnOk, take, is_some, slice_get};
ghost use Rattle.std.specs.Option.{option_map, option_or};
ghost use Rattle.blue_names.specs.First.{when};
ghost use Rattle.blue_names.specs.Table.{number_in};
ghost use Rattle.blue_modules.specs.Names.{is_called, entry_named, ArePlaces};

use crate::text::Entry;
use blue_names::table::{NameTable, find, note_name};
use elem_core::line::Line;
use elem_core::why::NoMemory;
use std::alloc::Global;
use std::collections::HashMap;
use std::marker::Model;

/// The entries of a body, with the place of each name of theirs.
#[derive(Drop)]
pub struct Entries<'a> {
    entries: &'a [Entry],
    places: NameTable<'a>,
}

impl<'a> Model for Entries<'a> {
    ghost use Rattle.std.specs.Prelude.{List};
    ghost use Rattle.blue_modules.specs.declared.text.Entry.{Entry as EntryValue};
    ghost use Rattle.blue_modules.specs.Names.{ArePlaces};

    ghost Value = { List EntryValue };

    ghost view = { λ b. b.entries.now };

    ghost invariant = { λ b. ArePlaces b.places b.entries.now };
}

impl<'a> Entries<'a> {
    /// These entries.
    pub fn of(alloc: Global, entries: &'a [Entry]) -> Result<Entries<'a>, NoMemory>
        ensures { IfOk result (λ b. b ≡ entries.now) }
    {
        let places = places_of(alloc, entries)?;
        Ok(Entries { entries, places })
    }

    /// All of them, in order.
    pub fn all(&self) -> &'a [Entry]
        ensures { result.now ≡ self.now }
    {
        self.entries
    }

    /// The node or the instance of that name.
    #[tactic(auto, using(crate::proofs::Naming::named_there, crate::proofs::Naming::named_nowhere))]
    pub fn named(&self, name: &Line) -> Option<&'a Entry>
        ensures { option_map (λ e. e.now) result ≡ entry_named name.now self.now }
    {
        match find(&self.places, name) {
            Some(i) => entry_at(self.entries, i),
            None => None,
        }
    }

    /// Whether a node or an instance before the entry of that number has this name.
    #[tactic(auto, using(crate::proofs::Naming::before_there, crate::proofs::Naming::before_nowhere))]
    pub fn has_before(&self, name: &Line, number: usize) -> bool
        ensures { result ≡ is_some (entry_named name.now (take number self.now)) }
    {
        match find(&self.places, name) {
            Some(first) => first < number,
            None => false,
        }
    }
}

/// The entry of that number.
fn entry_at(entries: &[Entry], i: usize) -> Option<&Entry>
    ensures { option_map (λ e. e.now) result ≡ slice_get entries.now i }
{
    entries.get(i)
}

/// Notes the place of an entry that has a name, where that name has none.
fn note_entry<'a>(
    places: &mut NameTable<'a>,
    entry: &'a Entry,
    number: usize,
) -> Result<(), NoMemory>
    ensures { OnOk result ((q : List ℕ) → number_in places.new q
        ≡ option_or (number_in places.old q) (when (is_called q entry.now) number)) }
{
    match entry {
        Entry::Node(node) => {
            let _ = note_name(places, &node.name, number)?;
            Ok(())
        }
        Entry::Instance(instance) => {
            let _ = note_name(places, &instance.name, number)?;
            Ok(())
        }
        Entry::Wire(_) => Ok(()),
    }
}

// Choice: docs/DECISIONS.md#places-by-table
/// The table of the places of names.
fn places_of<'a>(alloc: Global, entries: &'a [Entry]) -> Result<NameTable<'a>, NoMemory>
    ensures { IfOk result (λ places. ArePlaces places entries.now) }
{
    let mut places = HashMap::with_capacity(alloc, entries.len())?;
    for (i, entry) in entries.iter().enumerate() {
        note_entry(&mut places, entry, i)?;
    }
    Ok(places)
}
