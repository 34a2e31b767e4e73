// A drain into memory.
ghost use Rattle.std.specs.Prelude.{◌≡◌, ◌<◌, [], Some, IfOk};

use crate::outside::{Drain, Failed};
use elem_core::why::NoMemory;
use std::alloc::Global;

/// A console in memory. Its room is reserved when it is made, so that a put takes no memory (own).
#[derive(Drop)]
pub struct MemDrain {
    pub(crate) held: Vec<u8>,
    step: usize,
    fails: Vec<u32>,
    pub(crate) calls: u32,
    pub(crate) faults: u64,
}

impl MemDrain {
    /// An empty drain with room for `room` bytes, which takes at most `step` bytes, 1 at least, at each put. The puts whose numbers stand in `fails`, counted from 1, fail, and so does one that finds no room left.
    pub fn new(alloc: Global, fails: Vec<u32>, step: u32, room: u32) -> Result<MemDrain, NoMemory>
        requires { 0 < step }
        ensures { IfOk result (λ d. ⟦<MemDrain as Drain>⟧.state d ≡ record { name = []; holds = Some []; faults = 0 }) }
    {
        let held = Vec::with_capacity(alloc, room as usize)?;
        Ok(MemDrain {
            held,
            step: step as usize,
            fails,
            calls: 0,
            faults: 0,
        })
    }

    /// The bytes that it holds. It takes no memory.
    pub fn bytes(&self) -> &[u8]
        ensures { (⟦<MemDrain as Drain>⟧.state self.now).holds ≡ Some result.now }
    {
        &self.held
    }
}

impl Drain for MemDrain {
    ghost state = { λ d. record { name = []; holds = Some d.held.items; faults = d.faults } };

    fn put(&mut self, piece: &[u8]) -> Result<usize, Failed> {
        self.calls = self.calls.saturating_add(1);
        let room = self.held.capacity() - self.held.len();
        let size = piece.len().min(self.step).min(room);
        let fails = size == 0 || self.fails.contains(&self.calls);
        if !fails && self.held.extend_from_slice(&piece[..size]).is_ok() {
            return Ok(size);
        }
        self.faults = self.faults.saturating_add(1);
        Err(Failed)
    }
}
