// The place of each item among those of its home.
ghost use Rattle.std.specs.Prelude.{◌≡◌, ◌<◌, ℕ, IfOk, All, slice_index, vec_len};
ghost use Rattle.scatter.specs.Shares.{AreRanks};

use std::alloc::{AllocError, Global};

/// The ranks of items by their homes.
#[derive(Drop)]
pub struct Ranks {
    /// Of each item its place among those of its home, from 0.
    pub ranks: Vec<usize>,
    /// Of each home how many items have it.
    pub counts: Vec<usize>,
}

/// So many zeros.
fn zeros(alloc: Global, count: usize) -> Result<Vec<usize>, AllocError>
    ensures length { IfOk result (λ counts. vec_len counts ≡ count) }
    ensures zero { IfOk result (λ counts. (k : ℕ) → k < count → slice_index counts.items k ≡ 0) }
{
    let mut counts = Vec::new(alloc);
    'counts: for _ in 0..count {
        counts.push(0)?;
    }
    Ok(counts)
}

/// The rank of each item with one of so many homes, and how many items each home has. It takes time n + count for n items.
pub fn ranks_of(alloc: Global, homes: &[usize], count: usize) -> Result<Ranks, AllocError>
    requires { All (λ h. h < count) homes.now }
    ensures { IfOk result (λ r. AreRanks homes.now count r.ranks.items r.counts.items) }
{
    let mut counts = zeros(alloc, count)?;
    let mut ranks = Vec::new(alloc);
    for (i, home) in homes.iter().enumerate() {
        let rank = counts[*home];
        ranks.push(rank)?;
        counts[*home] = rank + 1;
    }
    Ok(Ranks { ranks, counts })
}
