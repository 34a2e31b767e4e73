// The boundary stage at the input end of a lane.
ghost use Rattle.std.specs.Prelude.{◌≡◌, true, [], IsOk, ⊤};
ghost use Rattle.port_core.specs.declared.view.OutView.TheVariants.{Unpulled};
ghost use Rattle.nodes.specs.OnePort.{output_only};
ghost use Rattle.nodes.specs.Entering.{EnteringFresh, EnteringPortState, EnteringLaw};
ghost use Rattle.stage_core.specs.declared.stage.Swift.TheVariants as swift;

use elem_core::elem::Elem;
use elem_core::item::Item;
use elem_core::why::{Cause, NoMemory};
use port_core::acts::Acts;
use stage_core::stage::{Stage, Swift};
use std::alloc::Global;
use std::marker::Model;

/// The stage at which what a lane brings enters an island. It has one output and no input, and does nothing by itself: its
/// output is pushed and closed between two events of the island, as the lane's elements, its end and the asks of the output
/// come. Rule: Akka Streams 2.6 reference, chapter on asynchronous boundaries.
#[derive(Drop)]
pub struct Entering {
    wire: u32,
}

impl Model for Entering {
    ghost use Rattle.nodes.specs.Entering.{Entering};

    ghost Value = { Entering };

    ghost view = { λ s. record { wire = s.wire } };
}

impl Entering {
    /// The stage of the lane that is wire `wire`. It takes no memory.
    pub fn new(wire: u32) -> Entering
        ensures stage { result ≡ record { wire = wire } }
        ensures fresh { EnteringFresh result (output_only Unpulled) }
    {
        Entering { wire }
    }

    /// The number of the wire that its lane is.
    pub fn wire(&self) -> u32
        ensures { result ≡ self.now.wire }
    {
        self.wire
    }
}

// Choice: docs/DECISIONS.md#boundary-handlers
impl Stage for Entering {
    ghost fresh = { EnteringFresh };

    ghost port_state = { EnteringPortState };

    ghost law = { EnteringLaw };

    ghost asking = { λ x v. ⊤ };

    ghost moves = { λ x. [] };

    ghost keeps = { λ old new. new ≡ old };

    ghost passive = { λ x. true };

    ghost gone = { λ x. [] };

    ghost waits = { λ x. [] };

    ghost late = { λ x. 0 };

    fn start(&mut self, _alloc: Global, _acts: &mut Acts) -> Result<(), NoMemory>
        ensures same { (self.new ≡ self.old) × (_acts.new ≡ _acts.old) }
        ensures answers { IsOk result }
    {
        Ok(())
    }

    fn on_pull(&mut self, _alloc: Global, _port: u8, _acts: &mut Acts) -> Result<(), NoMemory>
        ensures same { (self.new ≡ self.old) × (_acts.new ≡ _acts.old) }
        ensures answers { IsOk result }
    {
        Ok(())
    }

    // Nothing comes, since it has no input.
    fn on_push(
        &mut self,
        _alloc: Global,
        _port: u8,
        _e: Elem,
        _acts: &mut Acts,
    ) -> Result<(), NoMemory>
        ensures same { (self.new ≡ self.old) × (_acts.new ≡ _acts.old) }
        ensures answers { IsOk result }
    {
        Ok(())
    }

    fn push_at_once(&mut self, _port: u8, _e: &mut Elem, _acts: &mut Acts) -> Swift
        ensures rests { result ≡ swift.Rests }
        ensures same { (self.new ≡ self.old) × ((_e.new ≡ _e.old) × (_acts.new ≡ _acts.old)) }
    {
        Swift::Rests
    }

    fn on_finish(&mut self, _alloc: Global, _port: u8, _acts: &mut Acts) -> Result<(), NoMemory>
        ensures same { (self.new ≡ self.old) × (_acts.new ≡ _acts.old) }
        ensures answers { IsOk result }
    {
        Ok(())
    }

    fn on_fail(
        &mut self,
        _alloc: Global,
        _port: u8,
        _cause: Cause,
        _acts: &mut Acts,
    ) -> Result<(), NoMemory>
        ensures same { (self.new ≡ self.old) × (_acts.new ≡ _acts.old) }
        ensures answers { IsOk result }
    {
        Ok(())
    }

    fn on_cancel(&mut self, _alloc: Global, _port: u8, _acts: &mut Acts) -> Result<(), NoMemory>
        ensures same { (self.new ≡ self.old) × (_acts.new ≡ _acts.old) }
        ensures answers { IsOk result }
    {
        Ok(())
    }

    fn hand_out(&mut self) -> Option<Item> {
        None
    }

    fn let_go(&mut self) {}

    fn is_clear(&self) -> bool {
        true
    }

    fn is_passive(&self) -> bool {
        true
    }

    fn put_off(&mut self) -> bool {
        false
    }
}
