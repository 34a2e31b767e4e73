// Laws of the merge: each function has no body, and its contract is the law.
ghost use Rattle.std.specs.Prelude.{◌≡◌, ◌≢◌, ◌≤◌, ℕ, Bool, true, false, List, [], length, None};
ghost use Rattle.elem_core.specs.declared.item.Item.{Item};
ghost use Rattle.elem_core.specs.declared.why.Decider.{Decider};
ghost use Rattle.port_core.specs.declared.act.Act.{Act};
ghost use Rattle.port_core.specs.View.{View, unpulled_ins};
ghost use Rattle.port_core.specs.Call.{Call, starts, CallAllowed, Obeys};
ghost use Rattle.stream_model.specs.declared.kind.Kind.TheVariants.{Merge, MergeHub};
ghost use Rattle.stream_model.specs.declared.kind.TheConstants.{MAX_FAN};
ghost use Rattle.stream_model.specs.Graph.{Graph};
ghost use Rattle.stream_model.specs.Node.{World, node_outlook};
ghost use Rattle.stream_model.specs.Outlook.{Outlook, Agrees};
ghost use Rattle.stream_model.specs.FanIn.{AllAgree};
ghost use Rattle.stream_model.specs.Picks.{merge_fits};
ghost use Rattle.stage_core.specs.Rooms.{acts_for};
ghost use Rattle.stage_core.specs.Handling.{Starts, Handles};
ghost use Rattle.stage_core.specs.Merges.{call_by};
ghost use Rattle.stage_core.specs.Seats.{room_for};
ghost use Rattle.stage_core.specs.OwnRows.{FanRests};
ghost use Rattle.stage_core.specs.declared.phase.Phase.TheVariants.{New, Open};
ghost use Rattle.port_core.specs.Picks.{IsFreeLog, next_move, planned};
ghost use Rattle.stage_merge.specs.Mergings.{Merging, Begins, Turned, port_state, MergeFresh, MergePortState, MergesAs};
ghost use Rattle.stage_merge.specs.Rows.{MergeRestsBy, MergeMisfits};

/// A new merge of 1 to `MAX_FAN` inputs may be started, made no move, and knows that no port was asked.
pub fn a_new_merge_may_start()
    ensures { (inputs : ℕ) (gathers : Bool) (l : Merging) → 1 ≤ inputs → inputs ≤ MAX_FAN → Begins inputs gathers l → MergeFresh l (unpulled_ins inputs) }
{}

/// Where its port state and its law hold, a merge that was started and has found no misfit has closed all its ports, or has nothing
/// to do: it meets the row of its kind, or where it follows moves the row of a replay.
pub fn a_started_merge_rests()
    ensures { (first now : Merging) (v : View) (took gave : List (List Item)) → now.log.stuck ≡ false → MergePortState now v
        → (law : MergesAs first now v took gave) → FanRests (MergeRestsBy (next_move now.log.left) now.log.moves) v law.by.law.ins law.by.law.out_list }
{}

/// Where the port rules allow a call of a handler and the port state holds, a merge that was started is open, and the room that the
/// call wants is within what every stage is given.
pub fn a_called_merge_is_open()
    ensures opens { (l : Merging) (call : Call) (v : View) → l.core.phase ≢ New → CallAllowed call v → port_state l v → l.core.phase ≡ Open }
    ensures room { (l : Merging) (call : Call) (v : View) → CallAllowed call v → port_state l v → room_for (length l.core.over) ≤ acts_for v }
{}

/// What a handler owes to the port rules and to the law is all that is asked of a stage: its start begins the law of its
/// histories, and every other call keeps it. To the law it owes what the call asks as the stage takes it, where one that gathers takes a
/// failure for an end.
pub fn calls_keep_the_law()
    ensures starts { (old new : Merging) (acts : List Act) → Obeys starts (port_state old) (port_state new) acts → Turned starts old acts new
        → Starts MergePortState MergesAs MergeFresh old new acts }
    ensures handles { (call : Call) (old new : Merging) (acts : List Act) → Obeys call (port_state old) (port_state new) acts
        → Turned (call_by old.gathers call) old acts new → Handles MergePortState MergesAs call old new acts }
{}

/// Where its law holds, and what came to each input agrees with that input's outlook, its moves fit, and what it gave agrees
/// with the outlook that the model has of its output by these moves: as a merge, and as a merge hub where it gathers.
pub fn a_merge_agrees_with_its_outlook()
    ensures fits { (is : List Outlook) (first now : Merging) (v : View) (took gave : List (List Item)) → (law : MergesAs first now v took gave)
        → AllAgree is law.by.law.ins → merge_fits now.log.moves is ≡ true }
    ensures agrees { (g : Graph) (w : World) (node inputs : ℕ) (d : Decider) (is : List Outlook) (first now : Merging) (v : View) (took gave : List (List Item))
        → w.moves node ≡ now.log.moves
        → first.gathers ≡ false
        → (law : MergesAs first now v took gave) → AllAgree is law.by.law.ins → Agrees
        (node_outlook g w node (Merge inputs) d is 0) law.by.law.out_list law.by.law.out_end }
    ensures hub_agrees { (g : Graph) (w : World) (node size producers : ℕ) (d : Decider) (is : List Outlook) (first now : Merging) (v : View)
        (took gave : List (List Item))
        → w.moves node ≡ now.log.moves
        → first.gathers ≡ true
        → (law : MergesAs first now v took gave) → AllAgree is law.by.law.ins → Agrees
        (node_outlook g w node (MergeHub size producers) d is 0) law.by.law.out_list law.by.law.out_end }
{}

/// A misfit has its cause, over the outlooks of the inputs: the input of the next move ends, or where the merge gathers may fail, and all
/// its elements were given.
pub fn a_misfit_has_its_cause()
    ensures { (is : List Outlook) (first now : Merging) (v : View) (took gave : List (List Item)) → now.log.stuck ≡ true
        → (law : MergesAs first now v took gave) → AllAgree is law.by.law.ins → MergeMisfits first.gathers (next_move now.log.left) now.log.moves is }
{}

/// What it follows is what it was handed in with, of which its moves are the first.
pub fn moves_begin_the_plan()
    ensures { (first now : Merging) (v : View) (took gave : List (List Item)) → MergesAs first now v took gave → planned now.log ≡ first.log.left }
{}

/// One that was handed in free is free still: it follows nothing, and never stops.
pub fn a_free_merge_stays_free()
    ensures { (first now : Merging) (v : View) (took gave : List (List Item)) → first.log.left ≡ None → MergesAs first now v took gave → IsFreeLog now.log }
{}
