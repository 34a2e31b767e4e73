// Laws of the recover: each function has no body, and its contract is the law.
ghost use Rattle.std.specs.Prelude.{◌≡◌, ◌≢◌, ◌≤◌, true, false, ℕ, List, length, None};
ghost use Rattle.elem_core.specs.Tree.{Tree};
ghost use Rattle.elem_core.specs.declared.item.Item.{Item};
ghost use Rattle.port_core.specs.declared.act.Act.{Act};
ghost use Rattle.port_core.specs.View.{View, in_at, unpulled_ports};
ghost use Rattle.port_core.specs.Picks.{next_move, plan_of};
ghost use Rattle.port_core.specs.Call.{Call, starts, CallAllowed, Obeys};
ghost use Rattle.stream_model.specs.Node.{head_of};
ghost use Rattle.stream_model.specs.Outlook.{Outlook, Agrees};
ghost use Rattle.stream_model.specs.FanIn.{AllAgree};
ghost use Rattle.stream_model.specs.Picks.{recover_fits, recover_outlook};
ghost use Rattle.stage_core.specs.Handling.{Starts, Handles};
ghost use Rattle.stage_core.specs.declared.phase.Phase.TheVariants.{New, Open};
ghost use Rattle.stage_dropping.specs.Recovers.{RecoverHeld, RecoverTurnAt, RecoverResidual, RecoverRest, RecoverRests, FailedAt, RecoverMisfits, RecoverCause, RecoverCounts};
ghost use Rattle.stage_dropping.specs.Recoverings.{Recover, begun, follows, port_state, held_of, Turned, RecoverFresh, RecoverPortState, RecoversAs};

/// A new recover may be started, made no move, and knows that no port was asked; the same where it follows at most one move.
pub fn a_new_recover_may_start()
    ensures new { (t : Tree) → RecoverFresh (begun t) unpulled_ports }
    ensures follows { (t : Tree) (moves : List ℕ) → length moves ≤ 1 → RecoverFresh (follows moves (begun t)) unpulled_ports }
{}

/// Where its port state and its law hold, a recover that was started has closed both its ports, or has nothing to do: it waits for
/// its input and has given all that it took, or nobody asks it. Where it follows no move, its input may be shut and have failed.
pub fn a_started_recover_rests()
    ensures rests { (first now : Recover) (v : View) (took gave : List (List Item)) → now.still ≡ false → RecoverPortState now v
        → (law : RecoversAs first now v took gave) → RecoverRests v law.by.law.ins law.by.law.out_list }
    ensures without { (first now : Recover) (v : View) (took gave : List (List Item)) → now.still ≡ true → now.stuck ≡ false → RecoverPortState now v
        → (law : RecoversAs first now v took gave) → FailedAt (in_at v 0) law.by.law.ins }
    ensures free { (first now : Recover) (v : View) (took gave : List (List Item)) → first.left ≡ None → RecoversAs first now v took gave
        → (now.still ≡ false) × (now.left ≡ None) }
{}

/// A misfit has its cause, over what came: the input ended, or failed before as many passed as the move says, or gave more than that;
/// and the same over the outlook of the input.
pub fn a_misfit_has_its_cause()
    ensures came { (first now : Recover) (v : View) (took gave : List (List Item)) → now.stuck ≡ true → RecoverPortState now v
        → (law : RecoversAs first now v took gave) → RecoverMisfits (next_move now.left) law.by.law.ins }
    ensures outlook { (is : List Outlook) (first now : Recover) (v : View) (took gave : List (List Item)) → now.stuck ≡ true → RecoverPortState now v
        → (law : RecoversAs first now v took gave) → AllAgree is law.by.law.ins → RecoverCause (next_move now.left) is }
{}

/// What it follows is what it was handed in with, of which its moves are the first.
pub fn moves_begin_the_plan()
    ensures { (first now : Recover) (v : View) (took gave : List (List Item)) → RecoversAs first now v took gave
        → plan_of now.moves now.left ≡ first.left }
{}

/// Where the port rules allow a call of a handler and the port state holds, a recover that was started is open.
pub fn a_called_recover_is_open()
    ensures { (l : Recover) (call : Call) (v : View) → l.phase ≢ New → CallAllowed call v → port_state l v → l.phase ≡ Open }
{}

/// What a handler owes to the port rules and to the law is all that is asked of a stage: its start begins the law of its
/// histories, and every other call keeps it.
pub fn calls_keep_the_law()
    ensures starts { (old new : Recover) (acts : List Act) → Obeys starts (port_state old) (port_state new) acts → Turned starts old acts new
        → Starts RecoverPortState RecoversAs RecoverFresh old new acts }
    ensures handles { (call : Call) (old new : Recover) (acts : List Act) → Obeys call (port_state old) (port_state new) acts → Turned call old acts new
        → Handles RecoverPortState RecoversAs call old new acts }
{}

/// For every rest of its input: what a call pushes, and then what is given from now on, is what was given before for what
/// came and then the rest; and over its whole history what it gives in all is what it gave and what it gives from now on.
pub fn a_recover_gives_for_every_rest()
    ensures call { (t : Tree) (call : Call) (old : RecoverHeld) (out : List Item) (new : RecoverHeld) → RecoverTurnAt t call old out new
        → RecoverResidual t call old out new }
    ensures rest { (first now : Recover) (v : View) (took gave : List (List Item)) → (law : RecoversAs first now v took gave)
        → RecoverRest law.element (held_of now) law.by.law.ins law.by.law.out_list }
{}

/// Its move is how many elements it took, and then it gave at most one more.
pub fn moves_are_counted()
    ensures { (first now : Recover) (v : View) (took gave : List (List Item)) → (law : RecoversAs first now v took gave)
        → RecoverCounts now.moves law.by.law.ins law.by.law.out_list }
{}

/// Where its law holds, and what came to its input agrees with that input's outlook, its move fits, and what it gave agrees
/// with the outlook that the model has of a recover by this move, of the element that it had at first.
pub fn a_recover_agrees_with_its_outlook()
    ensures fits { (is : List Outlook) (first now : Recover) (v : View) (took gave : List (List Item)) → (law : RecoversAs first now v took gave)
        → AllAgree is law.by.law.ins → recover_fits now.moves (head_of is) ≡ true }
    ensures agrees { (is : List Outlook) (first now : Recover) (v : View) (took gave : List (List Item)) → (law : RecoversAs first now v took gave)
        → AllAgree is law.by.law.ins
        → Agrees (recover_outlook law.element now.moves (head_of is)) law.by.law.out_list law.by.law.out_end }
{}
