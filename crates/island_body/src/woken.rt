// The islands that a body wakes.
ghost use Rattle.std.specs.Prelude.{◌≡◌, ◌+◌, ◌<◌, ◌≤◌, [], ℕ, IfOk, ◌||◌, ◌==◌};
ghost use Rattle.port_core.specs.Ring.{is_queued, Distinct};

use elem_core::why::NoMemory;
use std::alloc::Global;
use std::marker::Model;

// Choice: docs/DECISIONS.md#which-to-wake
/// The islands that are to be woken, each once.
#[derive(Drop)]
pub struct Woken {
    // The least that may be.
    least: u32,
    islands: Vec<u32>,
    // Whether each island from the least on is among them, so that this is known without a search.
    marks: Vec<bool>,
}

impl Model for Woken {
    ghost use Rattle.std.specs.Prelude.{◌+◌, length, vec_capacity};
    ghost use Rattle.island_body.specs.Waked.{WokenIslands, MarkedFrom};

    ghost Value = { WokenIslands };

    ghost view = { λ w. record { least = w.least; size = w.least + length w.marks.items; queue = w.islands.items } };

    ghost invariant = { λ w. MarkedFrom w.least w.islands.items w.marks.items (vec_capacity w.islands) };
}

impl Woken {
    // None of the `count` islands from `least` on.
    pub(crate) fn none_of(alloc: Global, least: u32, count: usize) -> Result<Woken, NoMemory>
        ensures { IfOk result (λ w. w ≡ record { least = least; size = least + count; queue = [] }) }
    {
        let islands = Vec::with_capacity(alloc, count)?;
        let marks = vec![in alloc; false; count]?;
        Ok(Woken {
            least,
            islands,
            marks,
        })
    }

    // This island, too. It takes no memory.
    pub(crate) fn add(&mut self, island: u32)
        requires within { (self.old.least ≤ island) × (island < self.old.size) }
        ensures size { (self.new.least ≡ self.old.least) × (self.new.size ≡ self.old.size) }
        ensures holds { (w : ℕ) → is_queued self.new.queue w ≡ (is_queued self.old.queue w || (island == w)) }
        ensures once { Distinct self.new.queue }
    {
        let place = (island - self.least) as usize;
        if self.marks[place] {
            return;
        }
        self.marks[place] = true;
        self.islands.push_reserved(island);
    }

    // None any more. It takes no memory.
    pub(crate) fn clear(&mut self)
        ensures { self.new ≡ record self.old { queue = [] } }
    {
        while let Some(island) = self.islands.pop() {
            self.marks[(island - self.least) as usize] = false;
        }
    }

    // Those that are, in the order in which they were added.
    pub(crate) fn islands(&self) -> &[u32]
        ensures islands { result.now ≡ self.now.queue }
        ensures once { Distinct self.now.queue }
    {
        &self.islands
    }
}
