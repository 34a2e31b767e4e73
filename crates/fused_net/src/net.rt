ghost use Rattle.std.specs.Prelude.{◌≡◌, ◌<◌, IfOk, length, slice_index_or, slice_set};

use elem_core::why::NoMemory;
use std::alloc::Global;
use std::marker::Model;

/// The ports at the ends of a wire, each by its node's place and its number there.
#[derive(Clone, Copy, PartialEq, Eq, Debug)]
pub struct WireEnds {
    /// The node whose output it is.
    pub from: u32,
    /// Which of its outputs.
    pub output: u8,
    /// The node whose input it is.
    pub to: u32,
    /// Which of its inputs.
    pub input: u8,
}

/// The wires of a node, each by its place: those of its inputs, and those of its outputs.
#[derive(Drop)]
pub struct Ports {
    ins: Vec<u32>,
    outs: Vec<u32>,
}

impl Model for Ports {
    ghost use Rattle.fused_net.specs.PortLists.{PortLists};

    ghost Value = { PortLists };

    ghost view = { λ p. record { ins = p.ins.items; outs = p.outs.items } };
}

fn zeros(alloc: Global, count: usize) -> Result<Vec<u32>, NoMemory>
    ensures { IfOk result (λ xs. length xs.items ≡ count) }
{
    let mut xs = Vec::new(alloc);
    for _i in 0..count {
        xs.push(0)?;
    }
    Ok(xs)
}

impl Ports {
    /// The ports of a node. It takes no memory.
    pub fn new(ins: Vec<u32>, outs: Vec<u32>) -> Ports
        ensures { result ≡ record { ins = ins.items; outs = outs.items } }
    {
        Ports { ins, outs }
    }

    /// The ports of a node with so many inputs and outputs, whose wires are not known yet.
    pub fn sized(alloc: Global, inputs: usize, outputs: usize) -> Result<Ports, NoMemory>
        ensures ins { IfOk result (λ p. length p.ins ≡ inputs) }
        ensures outs { IfOk result (λ p. length p.outs ≡ outputs) }
    {
        let ins = zeros(alloc, inputs)?;
        let outs = zeros(alloc, outputs)?;
        Ok(Ports { ins, outs })
    }

    /// An input has this wire.
    pub fn set_input(&mut self, port: u8, wire: u32)
        requires { port < length self.old.ins }
        ensures { self.new ≡ record self.old { ins = slice_set self.old.ins port wire } }
    {
        self.ins[port as usize] = wire;
    }

    /// An output has this wire.
    pub fn set_output(&mut self, port: u8, wire: u32)
        requires { port < length self.old.outs }
        ensures { self.new ≡ record self.old { outs = slice_set self.old.outs port wire } }
    {
        self.outs[port as usize] = wire;
    }

    /// The wire of an input.
    pub fn input(&self, port: u8) -> u32
        requires { port < length self.now.ins }
        ensures { result ≡ slice_index_or self.now.ins port 0 }
    {
        self.ins[port as usize]
    }

    /// The wire of an output.
    pub fn output(&self, port: u8) -> u32
        requires { port < length self.now.outs }
        ensures { result ≡ slice_index_or self.now.outs port 0 }
    {
        self.outs[port as usize]
    }
}
