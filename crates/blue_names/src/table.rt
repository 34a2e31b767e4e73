// Tables from names to the numbers of what they name.
ghost use Rattle.std.specs.Prelude.{◌≡◌, ℕ, List, IfOk, OnOk, map, is_none};
ghost use Rattle.std.specs.Option.{option_or};
ghost use Rattle.elem_core.specs.Values.{same_text};
ghost use Rattle.blue_names.specs.First.{when};
ghost use Rattle.blue_names.specs.Table.{number_in, Numbers};

use elem_core::line::Line;
use elem_core::why::NoMemory;
use std::alloc::Global;
use std::collections::HashMap;
use stream_model::blueprint::{ChainDecl, Node};
use stream_model::head::{CustomHead, PlugHead};

/// The number of each name.
pub type NameTable<'a> = HashMap<&'a [u8], usize>;

/// What has a name.
pub trait Named {
    ghost use Rattle.std.specs.Prelude.{ℕ, List, ◌≡◌};

    ghost text: { Self → List ℕ };

    /// Its name.
    fn name(&self) -> &Line
        ensures { result.now ≡ text self.now };
}

impl Named for Line {
    ghost text = { λ l. l };

    fn name(&self) -> &Line {
        self
    }
}

impl Named for ChainDecl {
    ghost text = { λ c. c.name };

    fn name(&self) -> &Line {
        &self.name
    }
}

impl Named for Node {
    ghost text = { λ n. n.name };

    fn name(&self) -> &Line {
        &self.name
    }
}

impl Named for PlugHead {
    ghost text = { λ p. p.name };

    fn name(&self) -> &Line {
        &self.name
    }
}

impl Named for CustomHead {
    ghost text = { λ c. c.name };

    fn name(&self) -> &Line {
        &self.name
    }
}

/// Gives a name its number where it has none, and says whether it had none.
pub fn note_name<'a>(
    table: &mut NameTable<'a>,
    name: &'a Line,
    number: usize,
) -> Result<bool, NoMemory>
    ensures free { IfOk result (λ free. free ≡ is_none (number_in table.old name.now)) }
    ensures noted { OnOk result ((q : List ℕ) → number_in table.new q
        ≡ option_or (number_in table.old q) (when (same_text q name.now) number)) }
{
    let name = name.bytes();
    match table.insert(name, number)? {
        None => Ok(true),
        Some(first) => {
            // It keeps the number that it had.
            table.insert(name, first)?;
            Ok(false)
        }
    }
}

/// The number that a table has for a name.
pub fn find(table: &NameTable<'_>, name: &Line) -> Option<usize>
    ensures { result ≡ number_in table.now name.now }
{
    table.get(name.bytes()).copied()
}

/// The table of the places of these names.
pub fn table_of<'a, T: Named>(alloc: Global, items: &'a [T]) -> Result<NameTable<'a>, NoMemory>
    ensures { IfOk result (λ table. Numbers table (map T.text items.now)) }
{
    let mut table = HashMap::with_capacity(alloc, items.len())?;
    for (i, item) in items.iter().enumerate() {
        let _ = note_name(&mut table, item.name(), i)?;
    }
    Ok(table)
}
