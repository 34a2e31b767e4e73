// Laws of the buffers that drop: each function has no body, and its contract is the law.
ghost use Rattle.std.specs.Prelude.{◌≡◌, ◌≢◌, ◌<◌, ℕ, true, false, List, [], ◌∷◌, None};
ghost use Rattle.elem_core.specs.declared.item.Item.{Item};
ghost use Rattle.elem_core.specs.declared.why.Decider.{Decider};
ghost use Rattle.port_core.specs.declared.act.Act.{Act};
ghost use Rattle.port_core.specs.View.{View, unpulled_ports};
ghost use Rattle.port_core.specs.Call.{Call, starts, CallAllowed, Obeys};
ghost use Rattle.stream_model.specs.declared.kind.Kind.TheVariants.{Buffer};
ghost use Rattle.stream_model.specs.declared.kind.Policy.{Policy};
ghost use Rattle.stream_model.specs.declared.kind.Policy.TheVariants.{Backpressure};
ghost use Rattle.stream_model.specs.Graph.{Graph};
ghost use Rattle.stream_model.specs.Node.{World, node_outlook};
ghost use Rattle.stream_model.specs.Fits.{moves_fit};
ghost use Rattle.stream_model.specs.Outlook.{Outlook, Agrees};
ghost use Rattle.stream_model.specs.FanIn.{AllAgree};
ghost use Rattle.stage_core.specs.Handling.{Starts, Handles};
ghost use Rattle.stage_core.specs.declared.phase.Phase.TheVariants.{New, Open};
ghost use Rattle.port_core.specs.Picks.{IsFreeLog, next_move, planned};
ghost use Rattle.stage_dropping.specs.Drops.{RestGiven, DropRests, DropCounts, DropMisfits};
ghost use Rattle.stage_dropping.specs.Droppings.{Dropping, Begins, port_state, held_of, Turned, DropFresh, DropPortState, DropsAs};

/// A new buffer that has room for something and drops may be started, made no move, and knows that no port was asked.
pub fn a_new_buffer_may_start()
    ensures { (node n : ℕ) (p : Policy) (l : Dropping) → p ≢ Backpressure → 0 < n → Begins node n p l → DropFresh l unpulled_ports }
{}

/// Where its port state and its law hold, a buffer that was started and has found no misfit has closed both its ports, or has nothing to
/// do: it waits for its input, and holds nothing where its output is asked; or its input is over and nobody asks it. Where it follows moves
/// it waits for what the next one wants, or made them all.
pub fn a_started_buffer_rests()
    ensures { (first now : Dropping) (v : View) (took gave : List (List Item)) → now.log.stuck ≡ false → DropPortState now v
        → (law : DropsAs first now v took gave)
        → DropRests (next_move now.log.left) first.policy first.size now.log.moves v law.by.law.ins law.by.law.out_list }
{}

/// Where the port rules allow a call of a handler and the port state holds, a buffer that was started is open.
pub fn a_called_buffer_is_open()
    ensures { (l : Dropping) (call : Call) (v : View) → l.phase ≢ New → CallAllowed call v → port_state l v → l.phase ≡ Open }
{}

/// What a handler owes to the port rules and to the law is all that is asked of a stage: its start begins the law of its
/// histories, and every other call keeps it.
pub fn calls_keep_the_law()
    ensures starts { (old new : Dropping) (acts : List Act) → Obeys starts (port_state old) (port_state new) acts → Turned starts old acts new
        → Starts DropPortState DropsAs DropFresh old new acts }
    ensures handles { (call : Call) (old new : Dropping) (acts : List Act) → Obeys call (port_state old) (port_state new) acts → Turned call old acts new
        → Handles DropPortState DropsAs call old new acts }
{}

/// A buffer by its moves: for every rest of its input and every further list of moves, all the moves give of all that comes
/// what the further ones give of what waits and the rest, from what it gave and holds.
pub fn moves_give_for_every_rest()
    ensures { (first now : Dropping) (v : View) (took gave : List (List Item)) → (law : DropsAs first now v took gave)
        → RestGiven first.policy first.size (held_of now) law.by.law.ins law.by.law.out_list }
{}

/// It gave an element for each one among its moves, and took one for each zero.
pub fn moves_are_counted()
    ensures { (first now : Dropping) (v : View) (took gave : List (List Item)) → (law : DropsAs first now v took gave)
        → DropCounts now.log.moves law.by.law.ins law.by.law.out_list }
{}

/// Where its law holds, and what came to its input agrees with that input's outlook, its moves fit, and what it gave agrees
/// with the outlook that the model has of its output by these moves.
pub fn a_buffer_agrees_with_its_outlook()
    ensures fits { (g : Graph) (w : World) (is : List Outlook) (first now : Dropping) (v : View) (took gave : List (List Item)) → first.policy ≢ Backpressure
        → w.moves first.node ≡ now.log.moves
        → (law : DropsAs first now v took gave) → AllAgree is law.by.law.ins → moves_fit g w first.node (Buffer first.size first.policy) is ≡ true }
    ensures agrees { (g : Graph) (w : World) (d : Decider) (is : List Outlook) (first now : Dropping) (v : View) (took gave : List (List Item))
        → first.policy ≢ Backpressure → w.moves first.node ≡ now.log.moves
        → (law : DropsAs first now v took gave) → AllAgree is law.by.law.ins → Agrees
        (node_outlook g w first.node (Buffer first.size first.policy) d is 0) law.by.law.out_list law.by.law.out_end }
{}

/// A misfit has its cause, over the outlook of its input: that ends, and its moves took all its elements in; or they leave nothing held.
pub fn a_misfit_has_its_cause()
    ensures { (is : List Outlook) (first now : Dropping) (v : View) (took gave : List (List Item)) → now.log.stuck ≡ true
        → (law : DropsAs first now v took gave) → AllAgree is law.by.law.ins
        → (o : Outlook) × ((is ≡ o ∷ []) × DropMisfits first.policy first.size (next_move now.log.left) now.log.moves o) }
{}

/// What it follows is what it was handed in with, of which its moves are the first.
pub fn moves_begin_the_plan()
    ensures { (first now : Dropping) (v : View) (took gave : List (List Item)) → DropsAs first now v took gave → planned now.log ≡ first.log.left }
{}

/// One that was handed in free is free still: it follows nothing, and never stops.
pub fn a_free_buffer_stays_free()
    ensures { (first now : Dropping) (v : View) (took gave : List (List Item)) → first.log.left ≡ None → DropsAs first now v took gave → IsFreeLog now.log }
{}
