// Laws of one wire: each function has no body, and its contract is the law.
ghost use Rattle.std.specs.Prelude.{◌≡◌, ◌+◌, ◌≤◌, Bool, true, Option};
ghost use Rattle.elem_core.specs.Tree.{Tree};
ghost use Rattle.elem_core.specs.declared.why.Cause.{Cause};
ghost use Rattle.port_core.specs.Joint.{IsSound};
ghost use Rattle.port_core.specs.View.{IsInOpen, IsOutOpen};
ghost use Rattle.port_core.specs.Wire.{JointPorts, pull_of, push_of, close_of, cancel_of, delivery_of, after_delivery, again};
ghost use Rattle.port_core.specs.declared.view.InView.TheVariants.{Idle};
ghost use Rattle.port_core.specs.declared.view.OutView.TheVariants.{Available};
ghost use Rattle.port_core.specs.Counts.{spent};

/// No action lowers what a wire has cost, and each event that is delivered raises it, also one that comes to nothing. So the
/// events of a wire are at most twice its elements, and three more.
pub fn events_are_paid()
    ensures deliver { (w : JointPorts) → IsSound w true → spent w true + 1 ≤ spent (after_delivery (delivery_of w) w) (again (delivery_of w)) }
    ensures pull { (w : JointPorts) (q r : Bool) → IsSound w q → w.inp ≡ Idle → spent w q ≤ spent (pull_of w) r }
    ensures push { (e : Tree) (w : JointPorts) (q r : Bool) → IsSound w q → w.out ≡ Available → spent w q ≤ spent (push_of e w) r }
    ensures close { (c : Option Cause) (w : JointPorts) (q r : Bool) → IsSound w q → IsOutOpen w.out → spent w q ≤ spent (close_of c w) r }
    ensures cancel { (w : JointPorts) (q r : Bool) → IsSound w q → IsInOpen w.inp → spent w q ≤ spent (cancel_of w) r }
{}
