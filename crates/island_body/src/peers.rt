// The islands at the other ends of lanes.
ghost use Rattle.std.specs.Prelude.{◌≡◌, ◌+◌, ◌<◌, ◌≤◌, [], IfOk, All};
ghost use Rattle.port_core.specs.Ring.{Distinct};
ghost use Rattle.island_body.specs.Waked.{Added};

use crate::woken::Woken;
use elem_core::why::NoMemory;
use std::alloc::Global;
use std::cmp::{max, min};

/// The islands at the other ends of the lanes of an island, in the order of its ends, and which of them are to be woken.
#[derive(Drop)]
pub struct Peers {
    pub(crate) ins: Vec<u32>,
    pub(crate) outs: Vec<u32>,
    pub(crate) woken: Woken,
    ghost within: { All (λ w. (woken.least ≤ w) × (w < woken.size)) ins.items × All (λ w. (woken.least ≤ w) × (w < woken.size)) outs.items },
}

impl Peers {
    /// The islands at the other ends of the input ends of an island, and of its output ends, each in the order of these. None is to be
    /// woken yet. It takes all memory that a body needs to say which are.
    pub fn of(alloc: Global, ins: &[u32], outs: &[u32]) -> Result<Peers, NoMemory>
        ensures { IfOk result (λ p. (p.ins.items ≡ ins.now) × (p.outs.items ≡ outs.now) × (p.woken.queue ≡ [])) }
    {
        let (least, count) = span(ins, outs);
        Ok(Peers {
            ins: copied(alloc, ins)?,
            outs: copied(alloc, outs)?,
            woken: Woken::none_of(alloc, least, count)?,
        })
    }

    // The island at the other end of the input end at place k is to be woken, where that end told it something.
    pub(crate) fn tell_in(&mut self, k: usize, told: bool)
        ensures same { (self.new.ins ≡ self.old.ins) × (self.new.outs ≡ self.old.outs) }
        ensures added { Added self.old.ins.items k told self.old.woken.queue self.new.woken.queue }
    {
        wake(&self.ins, k, told, &mut self.woken);
    }

    // The same of the output end.
    pub(crate) fn tell_out(&mut self, k: usize, told: bool)
        ensures same { (self.new.ins ≡ self.old.ins) × (self.new.outs ≡ self.old.outs) }
        ensures added { Added self.old.outs.items k told self.old.woken.queue self.new.woken.queue }
    {
        wake(&self.outs, k, told, &mut self.woken);
    }

    // None is to be woken any more.
    pub(crate) fn clear(&mut self)
        ensures same { (self.new.ins ≡ self.old.ins) × (self.new.outs ≡ self.old.outs) }
        ensures none { self.new.woken.queue ≡ [] }
    {
        self.woken.clear();
    }

    // Those that are to be woken.
    pub(crate) fn woken(&self) -> &[u32]
        ensures { result.now ≡ self.now.woken.queue }
    {
        self.woken.islands()
    }
}

// The island at place k of these is to be woken, where it was told something.
fn wake(peers: &[u32], k: usize, told: bool, woken: &mut Woken)
    requires within { All (λ w. (woken.old.least ≤ w) × (w < woken.old.size)) peers.now }
    ensures size { (woken.new.least ≡ woken.old.least) × (woken.new.size ≡ woken.old.size) }
    ensures added { Added peers.now k told woken.old.queue woken.new.queue }
{
    if !told {
        return;
    }
    if let Some(island) = peers.get(k) {
        woken.add(*island);
    }
}

// The least of all these numbers, and how many there are from it up to the greatest.
fn span(ins: &[u32], outs: &[u32]) -> (u32, usize)
    ensures ins { All (λ w. (result.0 ≤ w) × (w < result.0 + result.1)) ins.now }
    ensures outs { All (λ w. (result.0 ≤ w) × (w < result.0 + result.1)) outs.now }
{
    let size = above(outs, above(ins, 0));
    let least = below(outs, below(ins, u32::MAX));
    (least, size.saturating_sub(least as usize))
}

// A number above each of these, and not below another.
fn above(numbers: &[u32], least: usize) -> usize
    requires { least ≤ 4294967296 }
    ensures least { (least ≤ result) × (result ≤ 4294967296) }
    ensures each { All (λ w. w < result) numbers.now }
{
    let mut size = least;
    for number in numbers {
        size = max(size, *number as usize + 1);
    }
    size
}

// A number below none of these, and not above another.
fn below(numbers: &[u32], most: u32) -> u32
    ensures most { result ≤ most }
    ensures each { All (λ w. result ≤ w) numbers.now }
{
    let mut least = most;
    for number in numbers {
        least = min(least, *number);
    }
    least
}

// The same numbers.
fn copied(alloc: Global, numbers: &[u32]) -> Result<Vec<u32>, NoMemory>
    ensures { IfOk result (λ all. all.items ≡ numbers.now) }
{
    let mut all = Vec::new(alloc);
    all.extend_from_slice(numbers)?;
    Ok(all)
}
