// What a report says of a run: how each sink ended, and what passed each wire.
use elem_core::why::NoMemory;
use std::alloc::Global;

/// What a report says of a wire.
#[derive(Clone, Copy)]
pub struct WireMark {
    /// How many elements passed.
    pub sent: u64,
    /// Whether the node behind it waits for an element.
    pub asked: bool,
    /// Whether it is closed.
    pub shut: bool,
}

/// How a sink ended.
#[derive(Clone, Copy)]
pub enum SinkEnd {
    /// It got all its elements.
    Ended,
    /// It has not ended.
    Unended,
    /// A stage before it failed.
    Failed,
    /// Its file could not be written.
    Fault,
}

/// What a report says of a sink.
#[derive(Clone, Copy)]
pub struct SinkMark {
    /// How it ended.
    pub end: SinkEnd,
    /// How many elements it took.
    pub count: u64,
}

/// A list of so many places with nothing in them.
fn nothing<T: Copy + Drop>(alloc: Global, count: usize) -> Result<Vec<Option<T>>, NoMemory> {
    let mut places = Vec::new(alloc);
    for _ in 0..count {
        places.push(None)?;
    }
    Ok(places)
}

/// What a report says of the nodes and the wires of a blueprint, by their numbers.
#[derive(Drop)]
pub struct RunMarks {
    sinks: Vec<Option<SinkMark>>,
    wires: Vec<Option<WireMark>>,
}

impl RunMarks {
    /// The marks of so many nodes and wires, of which nothing is said yet.
    pub fn new(alloc: Global, nodes: usize, wires: usize) -> Result<RunMarks, NoMemory> {
        Ok(RunMarks {
            sinks: nothing(alloc, nodes)?,
            wires: nothing(alloc, wires)?,
        })
    }

    /// Notes what is said of the node of that number, where there is one.
    pub fn mark_sink(&mut self, number: usize, mark: SinkMark) {
        if number < self.sinks.len() {
            self.sinks[number] = Some(mark);
        }
    }

    /// Notes what is said of the wire of that number, where there is one.
    pub fn mark_wire(&mut self, number: usize, mark: WireMark) {
        if number < self.wires.len() {
            self.wires[number] = Some(mark);
        }
    }

    /// What is said of the node of that number.
    pub(crate) fn sink(&self, number: usize) -> Option<SinkMark> {
        match self.sinks.get(number) {
            Some(mark) => *mark,
            None => None,
        }
    }

    /// What is said of the wire of that number.
    pub(crate) fn wire(&self, number: usize) -> Option<WireMark> {
        match self.wires.get(number) {
            Some(mark) => *mark,
            None => None,
        }
    }

    /// How many elements passed the wire that most of them passed.
    pub(crate) fn most(&self) -> u64 {
        let mut most = 0;
        for mark in &self.wires {
            if let Some(mark) = mark {
                most = mark.sent.max(most);
            }
        }
        most
    }
}
