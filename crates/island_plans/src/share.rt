// Items are shared out to lists, and their places there are told.
ghost use Rattle.std.specs.Prelude.{◌≡◌, ◌<◌, ℕ, IfOk, All, length, slice_index, vec_len};
ghost use Rattle.scatter.specs.Shares.{AreShares, rank_of};

use elem_core::why::NoMemory;
use scatter::ranks::ranks_of;
use scatter::shares::{rooms, scatter};
use std::alloc::Global;

/// The lists of homes, and of each item its place in the list of its home.
#[derive(Drop)]
pub struct Shared<T: Drop> {
    pub(crate) lists: Vec<Vec<T>>,
    pub(crate) ranks: Vec<usize>,
}

/// Shares out the items, of which each has one of so many homes.
pub fn share<T: Drop>(
    alloc: Global,
    homes: &[usize],
    items: Vec<T>,
    count: usize,
) -> Result<Shared<T>, NoMemory>
    requires below { All (λ h. h < count) homes.now }
    requires each { vec_len items ≡ length homes.now }
    ensures shares { IfOk result (λ s. AreShares homes.now items.items s.lists.items) }
    ensures count { IfOk result (λ s. length s.lists.items ≡ count) }
    ensures many { IfOk result (λ s. length s.ranks.items ≡ length homes.now) }
    ensures ranks { IfOk result (λ s. (i : ℕ) → i < length homes.now → slice_index s.ranks.items i ≡ rank_of homes.now i) }
{
    let ranks = ranks_of(alloc, homes, count)?;
    let lists = scatter(homes, items, rooms(alloc, &ranks.counts)?);
    Ok(Shared {
        lists,
        ranks: ranks.ranks,
    })
}
