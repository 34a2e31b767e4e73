// The calls that fail on purpose, by operation and name.
ghost use Rattle.std.specs.Prelude.{◌≡◌, [], false, length};

use elem_core::line::Line;
use elem_core::why::NoMemory;
use std::alloc::Global;

/// An operation on a file of a folder.
#[derive(Drop, Clone, Copy, PartialEq, Eq)]
pub enum Op {
    OpenIn,
    OpenOut,
    Read,
    Write,
}

/// A call that fails: the `nth` call of an operation on a name, counted from 1 across the handles of that name that were open one after another.
#[derive(Drop)]
pub struct FailAt {
    pub name: Line,
    pub op: Op,
    pub nth: u32,
}

impl FailAt {
    fn is_of(&self, op: Op, name: &Line) -> bool {
        self.op == op && self.name == *name
    }
}

/// Counts one call, and says whether it is one that fails. What is still to come is counted on from 1.
pub fn fires(fails: &mut [FailAt], op: Op, name: &Line) -> bool
    ensures { fails.old ≡ [] → result ≡ false }
{
    let mut fires = false;
    for i in 0..fails.len() {
        let fail = &mut fails[i];
        if fail.is_of(op, name) {
            fires = fires || fail.nth == 1;
            fail.nth = fail.nth.saturating_sub(1);
        }
    }
    fires
}

/// Counts calls that a handle made.
pub fn spend(fails: &mut [FailAt], op: Op, name: &Line, calls: u32) {
    for i in 0..fails.len() {
        let fail = &mut fails[i];
        if fail.is_of(op, name) {
            fail.nth = fail.nth.saturating_sub(calls);
        }
    }
}

/// The numbers of the calls that fail and are still to come.
pub fn to_come(alloc: Global, fails: &[FailAt], op: Op, name: &Line) -> Result<Vec<u32>, NoMemory> {
    let mut numbers = Vec::new(alloc);
    for fail in fails {
        if fail.is_of(op, name) {
            numbers.push(fail.nth)?;
        }
    }
    Ok(numbers)
}
