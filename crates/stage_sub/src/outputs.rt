ghost use Rattle.std.specs.Prelude.{◌≡◌, [], ◌∷◌, ◌++◌, map, OnOk, IfSome, IfNone, true, ◌↔◌};
ghost use Rattle.stream_model.specs.FanIn.{tag};
ghost use Rattle.std.specs.Prelude.{Some, None, false, ◌≢◌};
ghost use Rattle.stage_sub.specs.Outputs.{tagged};
ghost use Rattle.stage_sub.specs.Picking.{first_kept, first_of_sub, IsFirstKept};

use elem_core::elem::Elem;
use elem_core::elems::Elems;
use elem_core::why::NoMemory;
use std::alloc::Global;
use std::collections::VecDeque;
use std::marker::Model;

/// An output, and the number of its substream in order of opening.
#[derive(Drop)]
pub struct Output {
    pub port: u32,
    pub item: Elem,
}

// Choice: docs/DECISIONS.md#outputs-in-order
/// The outputs that a stage with substreams holds, in the order in which they arose.
#[derive(Drop)]
pub struct Outputs {
    queue: VecDeque<Output>,
}

impl Model for Outputs {
    ghost use Rattle.std.specs.Prelude.{List};
    ghost use Rattle.std.specs.Coded.{codes};
    ghost use Rattle.elem_core.specs.TreeCode.{tree_coded};
    ghost use Rattle.stream_model.specs.FanIn.{Tagged};
    ghost use Rattle.stage_sub.specs.Outputs.{all_tagged};

    ghost Value = { List Tagged };

    ghost coded = { Prim.hlevel (codes, tree_coded) };

    ghost view = { λ o. all_tagged o.queue.items };
}

impl Outputs {
    /// None. It takes no memory.
    pub fn new(alloc: Global) -> Outputs
        ensures { result ≡ [] }
    {
        Outputs {
            queue: VecDeque::new(alloc),
        }
    }

    /// Puts an output of substream `port` last.
    fn put(&mut self, port: u32, item: Elem) -> Result<(), NoMemory>
        ensures { OnOk result (self.new ≡ self.old ++ tag port item ∷ []) }
    {
        self.queue.push_back(Output { port, item })?;
        Ok(())
    }

    /// Puts all of `items` last, as outputs of substream `port`.
    pub fn put_all(&mut self, port: u32, items: &mut Elems) -> Result<(), NoMemory>
        ensures all { OnOk result (self.new ≡ self.old ++ map (tag port) items.old) }
        ensures none { OnOk result (items.new ≡ []) }
    {
        while let Some(item) = items.take() {
            self.put(port, item)?;
        }
        Ok(())
    }

    /// Takes out the first. It takes no memory.
    pub fn take(&mut self) -> Option<Output>
        ensures first { IfSome result (λ o. self.old ≡ tagged o ∷ self.new) }
        ensures none { IfNone result ((self.old ≡ []) × (self.new ≡ self.old)) }
    {
        self.queue.pop_front()
    }

    /// Takes out the first output of substream `port`. It takes no memory.
    #[tactic(auto, using(crate::proofs::Picking::some_tagged, crate::proofs::Picking::none_tagged))]
    pub fn take_of(&mut self, port: u32) -> Option<Output>
        ensures first { IfSome result (λ o. first_of_sub port self.old ≡ Some (tagged o, self.new)) }
        ensures none { IfNone result ((first_of_sub port self.old ≡ None) × (self.new ≡ self.old)) }
    {
        take_from(&mut self.queue, port)
    }

    /// Whether there is none.
    pub fn is_empty(&self) -> bool
        ensures { result ≡ true ↔ (self.now ≡ []) }
    {
        self.queue.is_empty()
    }
}

// Takes the first output of substream `port` out of a queue.
fn take_from(queue: &mut VecDeque<Output>, port: u32) -> Option<Output>
    ensures some { IfSome result (λ o. first_kept port queue.old.items ≡ Some (o, queue.new.items)) }
    ensures none { IfNone result ((first_kept port queue.old.items ≡ None) × (queue.new.items ≡ queue.old.items)) }
{
    match first_at(queue, port) {
        Some(place) => queue.remove(place),
        None => None,
    }
}

// The place of the first output of substream `port`.
fn first_at(queue: &VecDeque<Output>, port: u32) -> Option<usize>
    ensures { IsFirstKept port queue.now.items result }
{
    for place in 0..queue.len() {
        if is_of(&queue[place], port) {
            return Some(place);
        }
    }
    None
}

// It is an output of substream `port`.
fn is_of(output: &Output, port: u32) -> bool
    ensures yes { result ≡ true → output.now.port ≡ port }
    ensures no { result ≡ false → output.now.port ≢ port }
{
    output.port == port
}
