// The lists of homes.
ghost use Rattle.std.specs.Prelude.{◌≡◌, ◌<◌, ◌≤◌, ◌==◌, ◌+◌, [], ◌∷◌, ◌++◌, ℕ, List, IfOk, All, if◌then◌else◌, length, slice_index, vec_len, vec_capacity};
ghost use Rattle.scatter.specs.Shares.{items_at, room_at, share_of, AreEmptyFor, AreShares, AreWhole};

use std::alloc::{AllocError, Global};

/// Empty lists with room for so many items each.
pub fn rooms<T: Drop>(alloc: Global, counts: &[usize]) -> Result<Vec<Vec<T>>, AllocError>
    ensures { (homes : List ℕ) → ((k : ℕ) → k < length counts.now → slice_index counts.now k ≡ share_of k homes)
        → IfOk result (λ lists. AreEmptyFor homes (length counts.now) lists.items) }
{
    let mut lists = Vec::new(alloc);
    for count in counts {
        lists.push(Vec::with_capacity(alloc, *count)?)?;
    }
    Ok(lists)
}

/// Puts an item last into the list of its home, which has room for it.
fn put<T: Drop>(lists: &mut Vec<Vec<T>>, home: usize, item: T)
    requires home { home < vec_len lists.old }
    requires room { length (items_at lists.old.items home) + 1 ≤ room_at lists.old.items home }
    ensures length { vec_len lists.new ≡ vec_len lists.old }
    ensures items { (k : ℕ) → items_at lists.new.items k ≡ items_at lists.old.items k ++ (if home == k then item ∷ [] else []) }
    ensures room { (k : ℕ) → room_at lists.new.items k ≡ room_at lists.old.items k }
{
    lists[home].push_reserved(item);
}

/// Shares out the items: each goes, in order, into the list of its home. The lists are empty and have room for them. It takes
/// time n for n items, and no memory.
pub fn scatter<T: Drop>(homes: &[usize], items: Vec<T>, lists: Vec<Vec<T>>) -> Vec<Vec<T>>
    requires below { All (λ h. h < vec_len lists) homes.now }
    requires each { vec_len items ≡ length homes.now }
    requires empty { AreEmptyFor homes.now (vec_len lists) lists.items }
    ensures shares { AreShares homes.now items.items result.items }
    ensures length { vec_len result ≡ vec_len lists }
{
    let mut lists = lists;
    let mut i = 0;
    for item in items {
        put(&mut lists, homes[i], item);
        i += 1;
    }
    lists
}

/// The last item of the list of a home.
fn take_last<T: Drop>(lists: &mut Vec<Vec<T>>, home: usize) -> T
    requires some { 0 < length (items_at lists.old.items home) }
    ensures length { vec_len lists.new ≡ vec_len lists.old }
    ensures items { (k : ℕ) → items_at lists.old.items k ≡ items_at lists.new.items k ++ (if home == k then result ∷ [] else []) }
{
    match lists[home].pop() {
        Some(item) => item,
        None => unreachable!(),
    }
}

/// Brings shares back into one list, which is empty and has room for it: those of what it answers are the lists that were
/// handed in. It takes time n for n items, and no memory.
pub fn gather<T: Drop>(homes: &[usize], lists: Vec<Vec<T>>, room: Vec<T>) -> Vec<T>
    requires whole { AreWhole homes.now lists.items }
    requires empty { room.items ≡ [] }
    requires room { length homes.now ≤ vec_capacity room }
    ensures { AreShares homes.now result.items lists.items }
{
    let mut lists = lists;
    let mut items = room;
    let n = homes.len();
    for i in 0..n {
        let item = take_last(&mut lists, homes[n - 1 - i]);
        items.push_reserved(item);
    }
    items.reverse();
    items
}
