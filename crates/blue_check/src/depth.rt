// A depth-first walk over all nodes. Nothing is proved of what it finds: those who use it test that.
use blue_names::links::NumberedWire;
use blue_names::outs::row_of;
use elem_core::why::NoMemory;
use std::alloc::Global;

/// What is still to be done.
#[derive(Clone, Copy)]
enum Visit {
    /// Begin at a node.
    Begin(usize),
    /// Follow a wire.
    Follow(usize),
    /// Leave a node, all wires out of which were followed.
    Leave(usize),
}

/// A walk over all nodes that follows each wire once.
#[derive(Drop)]
pub struct Walk {
    /// What is still to be done, last first.
    todo: Vec<Visit>,
    /// At how many nodes it has begun.
    begun: usize,
    /// For each node the number, from 1 on, of the beginning from which it was reached; 0 where it was not.
    pub trees: Vec<usize>,
    /// The wires that led to a node for the first time, in that order.
    pub wires: Vec<usize>,
    /// The nodes in the order in which they were left.
    pub left: Vec<usize>,
}

impl Walk {
    /// Whether the walk has not come to a node.
    fn is_new(&self, node: usize) -> bool {
        match self.trees.get(node) {
            Some(tree) => *tree == 0,
            None => false,
        }
    }

    /// Comes to a node for the first time.
    fn enter(&mut self, rows: &[Vec<usize>], node: usize) -> Result<(), NoMemory> {
        if node < self.trees.len() {
            self.trees[node] = self.begun;
        }
        self.todo.push(Visit::Leave(node))?;
        for i in row_of(rows, node) {
            self.todo.push(Visit::Follow(*i))?;
        }
        Ok(())
    }

    /// Begins at a node, where the walk has not come to it.
    fn begin(&mut self, rows: &[Vec<usize>], node: usize) -> Result<(), NoMemory> {
        if self.is_new(node) {
            self.begun = self.begun.saturating_add(1);
            self.enter(rows, node)?;
        }
        Ok(())
    }

    /// Follows a wire to its end, where the walk has not come to that.
    fn follow(&mut self, ends: &[usize], rows: &[Vec<usize>], i: usize) -> Result<(), NoMemory> {
        if let Some(node) = ends.get(i).copied() {
            if self.is_new(node) {
                self.wires.push(i)?;
                self.enter(rows, node)?;
            }
        }
        Ok(())
    }

    /// Does what was to be done.
    fn take_step(
        &mut self,
        ends: &[usize],
        rows: &[Vec<usize>],
        step: Visit,
    ) -> Result<(), NoMemory> {
        match step {
            Visit::Begin(node) => self.begin(rows, node)?,
            Visit::Follow(i) => self.follow(ends, rows, i)?,
            Visit::Leave(node) => self.left.push(node)?,
        }
        Ok(())
    }
}

/// A walk that has not begun.
fn new_walk(alloc: Global, starts: &[usize]) -> Result<Walk, NoMemory> {
    let mut todo = Vec::new(alloc);
    let mut trees = Vec::new(alloc);
    for start in starts {
        todo.push(Visit::Begin(*start))?;
        trees.push(0_usize)?;
    }
    Ok(Walk {
        todo,
        begun: 0,
        trees,
        wires: Vec::new(alloc),
        left: Vec::new(alloc),
    })
}

/// A walk over all nodes, which are given last first. `ends` has the node to which each wire leads, and `rows` the wires out of
/// each node.
pub fn walk_all(
    alloc: Global,
    ends: &[usize],
    rows: &[Vec<usize>],
    starts: &[usize],
) -> Result<Walk, NoMemory> {
    let mut walk = new_walk(alloc, starts)?;
    let most = starts.len().saturating_mul(2).saturating_add(ends.len());
    'walk: for _ in 0..most {
        match walk.todo.pop() {
            Some(step) => walk.take_step(ends, rows, step)?,
            None => return Ok(walk),
        }
    }
    Ok(walk)
}

/// The node to which each wire leads.
pub fn walk_targets(alloc: Global, links: &[NumberedWire]) -> Result<Vec<usize>, NoMemory> {
    let mut targets = Vec::new(alloc);
    for link in links {
        targets.push(link.to)?;
    }
    Ok(targets)
}

/// The node from which each wire leads.
pub fn walk_sources(alloc: Global, links: &[NumberedWire]) -> Result<Vec<usize>, NoMemory> {
    let mut sources = Vec::new(alloc);
    for link in links {
        sources.push(link.from)?;
    }
    Ok(sources)
}

/// Puts a number last into a row, where there is such a row.
fn put_in(rows: &mut Vec<Vec<usize>>, row: usize, number: usize) -> Result<(), NoMemory> {
    if row < rows.len() {
        rows[row].push(number)?;
    }
    Ok(())
}

/// The wires to each of so many nodes.
pub fn ins_of(
    alloc: Global,
    count: usize,
    links: &[NumberedWire],
) -> Result<Vec<Vec<usize>>, NoMemory> {
    let mut rows = Vec::new(alloc);
    'rows: for _ in 0..count {
        rows.push(Vec::new(alloc))?;
    }
    for (i, link) in links.iter().enumerate() {
        put_in(&mut rows, link.to, i)?;
    }
    Ok(rows)
}
