// What follows from the table of port rules: each function has no body, and its contract is the law.
ghost use Rattle.std.specs.Prelude.{◌≡◌, ◌≤◌, ℕ, Bool, ◌↔◌, ◌⊎◌, Option, true, false, IsTrue, Err, List, [], ◌∷◌, ◌++◌, length};
ghost use Rattle.std.specs.List.{list_any};
ghost use Rattle.elem_core.specs.Tree.{Tree};
ghost use Rattle.elem_core.specs.declared.why.Cause.{Cause};
ghost use Rattle.elem_core.specs.declared.why.Why.{Why};
ghost use Rattle.port_core.specs.Connection.{Connection, unasked};
ghost use Rattle.port_core.specs.PortRules as rule;
ghost use Rattle.port_core.specs.PortRules.{Move, after_move};
ghost use Rattle.port_core.specs.declared.act.Act.{Act};
ghost use Rattle.port_core.specs.declared.chain.ChainStep.{ChainStep};
ghost use Rattle.port_core.specs.declared.chain.ChainStep.TheVariants.{Go, Failed};
ghost use Rattle.port_core.specs.declared.view.InView.TheVariants.{Idle};
ghost use Rattle.port_core.specs.declared.view.OutView.TheVariants.{Available};
ghost use Rattle.port_core.specs.Decoding.{can_pull, can_push, is_at_rest};
ghost use Rattle.port_core.specs.View.{View, IsInOpen, IsOutOpen, ActsAllowed, acted, acted_all};
ghost use Rattle.port_core.specs.Wire.{JointPorts, new_wire, pull_of, push_of, close_of, cancel_of, delivery_of, after_delivery, again};
ghost use Rattle.port_core.specs.Joint.{IsSound, LeavesSound, Heard};
ghost use Rattle.port_core.specs.Call.{given_on};
ghost use Rattle.port_core.specs.ListFunction.{ListFunction, ResidualFunction, Stops, FunctionEnds, Pushed, FunctionFinished, goes_on};
ghost use Rattle.port_core.specs.Runs.{AllowedRun, is_on_pull, is_on_push, is_grab, is_closing, is_ending, pushed_in, grabbed_in};

/// An output pushes only after it was pulled, before its next push, and before the connection is closed.
pub fn output_pushes_when_pulled()
    ensures first { (ms : List Move) (e : Tree) → AllowedRun unasked (ms ++ rule.push e ∷ []) → IsTrue (list_any is_on_pull ms) }
    ensures again { (p : Connection) (d e : Tree) (ms : List Move) → AllowedRun p (rule.push d ∷ (ms ++ rule.push e ∷ [])) → IsTrue (list_any is_on_pull ms) }
    ensures open { (p : Connection) (m : Move) (ms : List Move) (e : Tree) → IsTrue (is_closing m) → AllowedRun p (m ∷ (ms ++ rule.push e ∷ [])) → ⊥ }
{}

/// An input pulls only when no pull is outstanding, no delivered element waits to be grabbed, and the connection is not closed.
pub fn input_pulls_when_free()
    ensures answered { (p : Connection) (ms : List Move) → AllowedRun p (rule.pull ∷ (ms ++ rule.pull ∷ [])) → IsTrue (list_any is_on_push ms) }
    ensures grabbed { (p : Connection) (e : Tree) (ms : List Move) → AllowedRun p (rule.on_push e ∷ (ms ++ rule.pull ∷ [])) → IsTrue (list_any is_grab ms) }
    ensures open { (p : Connection) (m : Move) (ms : List Move) → IsTrue (is_closing m) → AllowedRun p (m ∷ (ms ++ rule.pull ∷ [])) → ⊥ }
{}

/// The elements that were pushed are grabbed once each, in their order, and all but at most one were grabbed.
pub fn elements_are_grabbed_once()
    ensures { (ms : List Move) → AllowedRun unasked ms → (left : List Tree) × ((pushed_in ms ≡ grabbed_in ms ++ left) × (length left ≤ 1)) }
{}

/// After a finish or a failure no element comes to the input, and after a cancel no pull comes to the output.
pub fn nothing_comes_after_a_closing()
    ensures input { (p : Connection) (m : Move) (ms : List Move) (e : Tree) → IsTrue (is_ending m) → AllowedRun p (m ∷ (ms ++ rule.on_push e ∷ [])) → ⊥ }
    ensures output { (p : Connection) (ms : List Move) → AllowedRun p (rule.on_cancel ∷ (ms ++ rule.on_pull ∷ [])) → ⊥ }
{}

/// An element that was pushed comes to the input before the end of the output does.
pub fn elements_come_before_the_end()
    ensures { (p : Connection) (e : Tree) (m : Move) (ms : List Move) → IsTrue (is_ending m) → AllowedRun p (rule.push e ∷ (ms ++ m ∷ []))
        → IsTrue (list_any is_on_push ms) }
{}

/// To close a side that is closed changes nothing, and a failure leaves no cause where a side was closed before.
pub fn sides_close_once()
    ensures complete { (p : Connection) → p.out_closed ≡ true → after_move rule.complete p ≡ p }
    ensures fail { (p : Connection) (c : Cause) → p.out_closed ≡ true → after_move (rule.fail c) p ≡ p }
    ensures cancel { (p : Connection) → p.in_closed ≡ true → after_move rule.cancel p ≡ p }
    ensures cause { (p : Connection) (c : Cause) → p.in_closed ≡ true → (after_move (rule.fail c) p).cause ≡ p.cause }
{}

/// Actions that follow one another: they are allowed where each part is allowed in its turn, and what they give at an output
/// is what the parts give there. No action makes a port.
pub fn actions_follow_one_another()
    ensures allowed { (v : View) (a b : List Act) → ActsAllowed v (a ++ b) ↔ (ActsAllowed v a × ActsAllowed (acted_all v a) b) }
    ensures acted { (v : View) (a b : List Act) → acted_all v (a ++ b) ≡ acted_all (acted_all v a) b }
    ensures given { (j : ℕ) (a b : List Act) → given_on j (a ++ b) ≡ given_on j a ++ given_on j b }
    ensures inputs { (v : View) (a : Act) → length (acted v a).ins ≡ length v.ins }
    ensures outputs { (v : View) (a : Act) → length (acted v a).outs ≡ length v.outs }
{}

/// What a chain gave, and then what it still gives for every rest, is its list function from its start: an element more
/// keeps this, also where the chain stops within it, and the end brings what the list function says of an input that ends.
pub fn chains_keep_their_list_function()
    ensures goes { (f g h : ListFunction) (took gave before now : List Tree) (t : Tree) → ResidualFunction f took gave g → Pushed g t Go before now h
        → (given : List Tree) × ((now ≡ before ++ given) × ResidualFunction f (took ++ t ∷ []) (gave ++ given) h) }
    ensures stops { (f g h : ListFunction) (took gave before now : List Tree) (t : Tree) (step : ChainStep) → goes_on step ≡ false
        → ResidualFunction f took gave g → Pushed g t step before now h → (given : List Tree)
        × ((now ≡ before ++ given) × Stops f (took ++ t ∷ []) (gave ++ given) step) }
    ensures ends { (f g : ListFunction) (took gave before now : List Tree) → ResidualFunction f took gave g → FunctionFinished g Go before now
        → (given : List Tree) × ((now ≡ before ++ given) × FunctionEnds f took (gave ++ given)) }
    ensures fails { (f g : ListFunction) (took gave before now : List Tree) (w : Why) → ResidualFunction f took gave g
        → FunctionFinished g (Failed w) before now → f.adds took ≡ Err w }
{}

/// A stage that keeps to the port rules as it sees them keeps to the table: on a wire whose two ends do so, each action and
/// each delivery leads from a joint state to a joint state, whether or not a closing is on its way.
pub fn wires_stay_sound()
    ensures new { IsSound new_wire false }
    ensures pull { (w : JointPorts) (q : Bool) → IsSound w q → w.inp ≡ Idle → LeavesSound (pull_of w) q (can_pull w.conn) }
    ensures push { (e : Tree) (w : JointPorts) (q : Bool) → IsSound w q → w.out ≡ Available → LeavesSound (push_of e w) q (can_push w.conn) }
    ensures close { (c : Option Cause) (w : JointPorts) (q : Bool) → IsSound w q → IsOutOpen w.out → LeavesSound (close_of c w) q (is_at_rest w.conn) }
    ensures cancel { (w : JointPorts) (q : Bool) → IsSound w q → IsInOpen w.inp → LeavesSound (cancel_of w) q (is_at_rest w.conn) }
    ensures deliver { (w : JointPorts) → IsSound w true → IsSound (after_delivery (delivery_of w) w) (again (delivery_of w)) }
{}

/// What a stage sees of its ports and the table say the same: a pull or a push that the stage's view allows is dropped only
/// where the other end has closed its side and that has not come, and what is delivered comes where the view allows it.
pub fn views_agree_with_the_table()
    ensures pull { (w : JointPorts) (q : Bool) → IsSound w q → w.inp ≡ Idle → IsTrue (can_pull w.conn) ⊎ (w.conn.out_closed ≡ true) }
    ensures push { (w : JointPorts) (q : Bool) → IsSound w q → w.out ≡ Available → IsTrue (can_push w.conn) ⊎ (w.conn.in_closed ≡ true) }
    ensures delivery { (w : JointPorts) → IsSound w true → Heard (delivery_of w) w }
{}
