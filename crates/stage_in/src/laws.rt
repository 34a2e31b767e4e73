// Laws of the stages with several inputs: each function has no body, and its contract is the law.
ghost use Rattle.std.specs.Prelude.{◌≡◌, ◌≢◌, ◌≤◌, ℕ, true, List, length, None};
ghost use Rattle.elem_core.specs.declared.item.Item.{Item};
ghost use Rattle.elem_core.specs.declared.why.Decider.{Decider};
ghost use Rattle.port_core.specs.declared.act.Act.{Act};
ghost use Rattle.port_core.specs.View.{View};
ghost use Rattle.port_core.specs.Call.{Call, starts, CallAllowed, Obeys};
ghost use Rattle.stream_model.specs.declared.kind.Kind.{Kind};
ghost use Rattle.stream_model.specs.Graph.{Graph};
ghost use Rattle.stream_model.specs.Node.{World, node_outlook};
ghost use Rattle.stream_model.specs.Outlook.{Outlook, Agrees};
ghost use Rattle.stream_model.specs.FanIn.{AllAgree};
ghost use Rattle.stream_model.specs.Fits.{moves_fit};
ghost use Rattle.stage_core.specs.Rooms.{acts_for};
ghost use Rattle.stage_core.specs.Handling.{Starts, Handles};
ghost use Rattle.stage_in.specs.declared.logic.InLogic.{InLogic};
ghost use Rattle.stage_in.specs.Logics.{Begins, IsNew, IsOpen, IsStarted, InFresh, InLaw, InPortState, KindRests, FreeRests, NotStuck, StopsRightly, Turned, inputs_of, room_of, port_state};
ghost use Rattle.stage_in.specs.Moves.{TellsMoves, in_plan};
ghost use Rattle.stage_core.specs.OwnRows.{FanRests};

/// Where its port state and its law hold, a stage that was started and has not stopped has closed all its ports, or has nothing to do:
/// it meets the row of its kind, or where it follows moves the row that its next move says; and one that follows none meets that of its
/// kind.
pub fn a_started_stage_rests()
    ensures rests { (first now : InLogic) (v : View) (took gave : List (List Item)) → IsStarted now → NotStuck now → port_state now v
        → (law : InLaw first now v took gave) → FanRests (KindRests now) v law.by.law.ins law.by.law.out_list }
    ensures free { (first now : InLogic) (v : View) (took gave : List (List Item)) → in_plan first ≡ None → IsStarted now → port_state now v
        → (law : InLaw first now v took gave) → FanRests (FreeRests now) v law.by.law.ins law.by.law.out_list }
{}

/// What a stage follows is what it was handed in with.
pub fn a_stage_keeps_its_plan()
    ensures { (first now : InLogic) (v : View) (took gave : List (List Item)) → InLaw first now v took gave → in_plan now ≡ in_plan first }
{}

/// A merge that stopped has its cause, over the outlooks of its inputs: the input of the next move ends, and its moves gave all its
/// elements.
pub fn a_stop_has_its_cause()
    ensures { (is : List Outlook) (first now : InLogic) (v : View) (took gave : List (List Item)) → (law : InLaw first now v took gave)
        → AllAgree is law.by.law.ins → StopsRightly is now }
{}

/// Where the port rules allow a call of a handler and the port state holds, a stage that was started is open.
pub fn a_called_stage_is_open()
    ensures { (l : InLogic) (call : Call) (v : View) → IsStarted l → call ≢ starts → CallAllowed call v → port_state l v → IsOpen l }
{}

/// Where the port rules allow a call of a handler and the port state holds, the room that the call wants is within what every stage
/// is given.
pub fn a_call_wants_little_room()
    ensures { (l : InLogic) (call : Call) (v : View) → CallAllowed call v → port_state l v → room_of l ≤ acts_for v }
{}

/// What a handler owes to the port rules and to the law is all that is asked of a stage: its start begins the law of its
/// histories, and every other call keeps it.
pub fn calls_keep_the_law()
    ensures starts { (old new : InLogic) (acts : List Act) → IsNew old → Obeys starts (port_state old) (port_state new) acts → Turned starts old acts new
        → Starts InPortState InLaw InFresh old new acts }
    ensures handles { (call : Call) (old new : InLogic) (acts : List Act) → call ≢ starts → IsStarted old → Obeys call (port_state old) (port_state new) acts
        → Turned call old acts new → Handles InPortState InLaw call old new acts }
{}

/// Where its law holds from a new stage of this kind on, and what came to each input agrees with that input's outlook, its
/// moves fit, and what it gave agrees with the outlook that the model has of its output by these moves.
pub fn a_stage_agrees_with_its_outlook()
    ensures fits { (g : Graph) (w : World) (node : ℕ) (kind : Kind) (d : Decider) (is : List Outlook) (first now : InLogic) (v : View)
        (took gave : List (List Item)) → Begins node kind d first → TellsMoves w node now
        → (law : InLaw first now v took gave) → AllAgree is law.by.law.ins → moves_fit g w node kind is ≡ true }
    ensures agrees { (g : Graph) (w : World) (node : ℕ) (kind : Kind) (d : Decider) (is : List Outlook) (first now : InLogic) (v : View)
        (took gave : List (List Item)) → Begins node kind d first → length is ≡ inputs_of kind → TellsMoves w node now
        → (law : InLaw first now v took gave) → AllAgree is law.by.law.ins → Agrees (node_outlook g w node kind d is 0) law.by.law.out_list law.by.law.out_end }
{}
