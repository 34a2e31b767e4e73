// Laws of the balance: each function has no body, and its contract is the law.
ghost use Rattle.std.specs.Prelude.{◌≡◌, ◌≢◌, ◌≤◌, ◌++◌, ℕ, Bool, true, false, List, [], length, None};
ghost use Rattle.elem_core.specs.Tree.{Tree};
ghost use Rattle.elem_core.specs.declared.item.Item.{Item};
ghost use Rattle.elem_core.specs.declared.why.Cause.{Cause};
ghost use Rattle.elem_core.specs.declared.why.Decider.{Decider};
ghost use Rattle.port_core.specs.Picks.{IsFreeLog, next_move, planned};
ghost use Rattle.port_core.specs.declared.act.Act.{Act};
ghost use Rattle.port_core.specs.View.{View, unpulled_outs};
ghost use Rattle.port_core.specs.Call.{Call, starts, CallAllowed, Obeys};
ghost use Rattle.stream_model.specs.declared.kind.Kind.TheVariants.{Balance};
ghost use Rattle.stream_model.specs.declared.kind.TheConstants.{MAX_FAN};
ghost use Rattle.stream_model.specs.Graph.{Graph};
ghost use Rattle.stream_model.specs.Node.{World, head_of, node_outlook};
ghost use Rattle.stream_model.specs.Outlook.{Outlook, End, unended, ended, failed, Agrees};
ghost use Rattle.stream_model.specs.FanIn.{Inflow};
ghost use Rattle.stream_model.specs.Picks.{balance_fits, sent_to, BalanceStands};
ghost use Rattle.stage_core.specs.Rooms.{acts_for};
ghost use Rattle.stage_core.specs.Handling.{Starts, Handles};
ghost use Rattle.stage_core.specs.Seats.{room_for};
ghost use Rattle.stage_out.specs.Dealings.{Dealt, DealStands};
ghost use Rattle.stage_out.specs.Balancings.{Balancing, Begins, Turned, port_state, lacks, BalanceFresh, BalancesAs};
ghost use Rattle.stage_out.specs.BalanceRows.{BalanceRestsOwn, BalanceMisfits};

/// A balance by its moves: for every rest of its input and every further list of moves, an output that lacks nothing gets what it got and
/// what the further moves give of what waits with the rest; moves on what waits are further moves, where no output gets any behind an
/// element that it lacks; and each output stands as is said, where an end is passed on only when nothing waits, and a failure when at most
/// one element does.
pub fn moves_give_for_every_rest()
    ensures rest { (lacks : ℕ → Bool) (moves : List ℕ) (l w : List Tree) (g : ℕ → List Tree) → Dealt lacks moves l g w
        → (r : List Tree) (further : List ℕ) (j : ℕ)
        → lacks j ≡ false → sent_to j (moves ++ further) (l ++ r) ≡ g j ++ sent_to j further (w ++ r) }
    ensures turn { (was lacks : ℕ → Bool) (moves more : List ℕ) → ((j : ℕ) → lacks j ≡ false → was j ≡ false) → (l w r u : List Tree) (g k : ℕ → List Tree)
        → ((j : ℕ) → was j ≡ true → k j ≡ []) → Dealt was moves l g w → Dealt lacks more (w ++ r) k u
        → Dealt lacks (moves ++ more) (l ++ r) (λ j. g j ++ k j) u }
    ensures stands { (lacks : ℕ → Bool) (moves : List ℕ) (f : Inflow) (w : List Tree) (g : ℕ → List Tree) (j : ℕ) (e : End) → Dealt lacks moves f.list g w
        → (e ≢ unended → lacks j ≡ false) → (e ≡ ended → (f.end ≡ ended) × (w ≡ [])) → ((c : Cause) → e ≡ failed c → (f.end ≡ failed c) × (length w ≤ 1))
        → DealStands (lacks j) moves j f (g j) e }
{}

/// A new balance of 2 to `MAX_FAN` outputs may be started, made no move, and knows that no port was asked.
pub fn a_new_balance_may_start()
    ensures { (outputs : ℕ) (l : Balancing) → 2 ≤ outputs → outputs ≤ MAX_FAN → Begins outputs l → BalanceFresh l (unpulled_outs outputs) }
{}

/// Where its port state and its law hold, a balance that has found no misfit has closed all its ports, or has nothing to do: it meets the
/// row of its kind, or where it follows moves the row of a replay.
pub fn a_started_balance_rests()
    ensures { (first now : Balancing) (v : View) (took gave : List (List Item)) → now.log.stuck ≡ false → port_state now v
        → (law : BalancesAs first now v took gave)
        → BalanceRestsOwn (next_move now.log.left) v law.law.flow.list law.law.lists }
{}

/// Where the port rules allow a call of a handler and the port state holds, a balance is open, and the room that the call wants is
/// within what every stage is given.
pub fn a_called_balance_is_open()
    ensures opens { (l : Balancing) (call : Call) (v : View) → CallAllowed call v → port_state l v → l.core.live ≡ true }
    ensures room { (l : Balancing) (call : Call) (v : View) → CallAllowed call v → port_state l v → room_for (length l.core.outs) ≤ acts_for v }
{}

/// What a handler owes to the port rules and to the law is all that is asked of a stage: its start begins the law of its
/// histories, and every other call keeps it.
pub fn calls_keep_the_law()
    ensures starts { (old new : Balancing) (acts : List Act) → Obeys starts (port_state old) (port_state new) acts → Turned starts old acts new
        → Starts port_state BalancesAs BalanceFresh old new acts }
    ensures handles { (call : Call) (old new : Balancing) (acts : List Act) → Obeys call (port_state old) (port_state new) acts → Turned call old acts new
        → Handles port_state BalancesAs call old new acts }
{}

/// Where its law holds, and what came to its input agrees with that input's outlook, its moves fit, and what it gave at each
/// output agrees with the outlook that the model has of that output by these moves.
pub fn a_balance_agrees_with_its_outlooks()
    ensures fits { (is : List Outlook) (first now : Balancing) (v : View) (took gave : List (List Item)) → (law : BalancesAs first now v took gave)
        → Agrees (head_of is) law.law.flow.list law.law.flow.end → balance_fits (length v.outs) now.log.moves (head_of is) ≡ true }
    ensures agrees { (g : Graph) (w : World) (node outputs : ℕ) (d : Decider) (is : List Outlook) (first now : Balancing) (v : View)
        (took gave : List (List Item)) → w.moves node ≡ now.log.moves
        → (law : BalancesAs first now v took gave) → Agrees (head_of is) law.law.flow.list law.law.flow.end → (j : ℕ)
        → Agrees (node_outlook g w node (Balance outputs) d is j) (law.law.lists j) (law.law.ends j) }
{}

/// A misfit has its cause, over the outlook of the input: it ends, and all its elements were given or dropped.
pub fn a_misfit_has_its_cause()
    ensures { (o : Outlook) (first now : Balancing) (v : View) (took gave : List (List Item)) → now.log.stuck ≡ true → (law : BalancesAs first now v took gave)
        → Agrees o law.law.flow.list law.law.flow.end → BalanceMisfits (next_move now.log.left) now.log.moves o }
{}

/// What it follows is what it was handed in with, of which its moves are the first.
pub fn moves_begin_the_plan()
    ensures { (first now : Balancing) (v : View) (took gave : List (List Item)) → BalancesAs first now v took gave → planned now.log ≡ first.log.left }
{}

/// One that was handed in free is free still: it follows nothing, and never stops. It gave each output all its elements; and what an output of
/// any balance gave stands as is said of it.
pub fn a_free_balance_stays_free()
    ensures free { (first now : Balancing) (v : View) (took gave : List (List Item)) → first.log.left ≡ None → BalancesAs first now v took gave
        → IsFreeLog now.log }
    ensures whole { (first now : Balancing) (v : View) (took gave : List (List Item)) → (law : BalancesAs first now v took gave) → first.log.left ≡ None
        → (j : ℕ)
        → BalanceStands now.log.moves j law.law.flow (law.law.lists j) (law.law.ends j) }
    ensures stands { (first now : Balancing) (v : View) (took gave : List (List Item)) → (law : BalancesAs first now v took gave) → (j : ℕ)
        → DealStands (lacks now.log.left now.core.outs j) now.log.moves j law.law.flow (law.law.lists j) (law.law.ends j) }
{}
