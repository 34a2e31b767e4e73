ghost use Rattle.std.specs.Prelude.{◌≡◌, OnOk, Some, if◌then◌else◌};
ghost use Rattle.std.specs.Ordering.{is_eq};
ghost use Rattle.elem_core.specs.Tree.{Tree};
ghost use Rattle.elem_core.specs.Order.{tree_cmp};
ghost use Rattle.stage_sub.specs.Places.{place_at};

use elem_core::elem::Elem;
use elem_core::why::NoMemory;
use std::collections::BTreeMap;

/// The place of each key.
pub type Places = BTreeMap<Elem, usize>;

/// The place of a key, where there is one.
pub fn find_place(places: &Places, key: &Elem) -> Option<usize>
    ensures { result ≡ place_at places.now key.now }
{
    places.get(key).copied()
}

// Choice: docs/DECISIONS.md#numbers-of-32-bits
/// One more key.
pub fn add_place(places: &mut Places, key: Elem, i: usize) -> Result<(), NoMemory>
    ensures { OnOk result ((k : Tree) → place_at places.new k ≡ (if is_eq (tree_cmp key k) then Some i else place_at places.old k)) }
{
    places.insert(key, i)?;
    Ok(())
}
