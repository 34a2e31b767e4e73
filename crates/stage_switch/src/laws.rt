// Laws of valves and trips: each function has no body, and its contract is the law.
ghost use Rattle.std.specs.Prelude.{◌≡◌, ◌≢◌, ◌≤◌, ◌⊎◌, ℕ, List, [], ◌∷◌, ◌++◌, length, true, false, IfSome, Some, None};
ghost use Rattle.elem_core.specs.Items.{elements};
ghost use Rattle.elem_core.specs.declared.item.Item.{Item};
ghost use Rattle.elem_core.specs.declared.why.Decider.{Decider};
ghost use Rattle.stage_switch.specs.declared.order.Order.{Order};
ghost use Rattle.stage_switch.specs.Public.{SwitchState, SeatState, IsSeatOf};
ghost use Rattle.port_core.specs.declared.act.Act.{Act};
ghost use Rattle.port_core.specs.declared.view.InView.TheVariants.{Pulled};
ghost use Rattle.port_core.specs.declared.view.OutView.TheVariants.{Available};
ghost use Rattle.port_core.specs.View.{View, in_at, out_at, ActsAllowed, acted_all, unpulled_ports};
ghost use Rattle.port_core.specs.Call.{Call, starts, AllIdle, CallAllowed, Obeys, seen, brought_to, given_on};
ghost use Rattle.stream_model.specs.declared.kind.Kind.TheVariants as kind;
ghost use Rattle.stream_model.specs.Graph.{Graph};
ghost use Rattle.stream_model.specs.Node.{World, node_outlook};
ghost use Rattle.stream_model.specs.Outlook.{Outlook, unended, Agrees};
ghost use Rattle.stream_model.specs.FanIn.{AllAgree};
ghost use Rattle.port_core.specs.Picks.{IsMove, next_move, plan_of};
ghost use Rattle.stream_model.specs.Picks.{Acted, acted, valve_fits};
ghost use Rattle.stream_model.specs.Linear.{Book, passing, linear, begin_work};
ghost use Rattle.stage_core.specs.Handling.{Starts, Handles};
ghost use Rattle.stage_core.specs.Law.{GaveAs};
ghost use Rattle.stage_core.specs.OwnPorts.{OwnRests};
ghost use Rattle.stage_core.specs.declared.phase.Phase.TheVariants.{Open};
ghost use Rattle.stage_switch.specs.Valves.{ValveHeld, passes, shut, did, GaveUpTo, PassedAll, ValveTurnAt, ValveLaw, ValveStandsOf, ValveResidual, ValveRest, ValveRests, ValveMisfits, ValveCause};
ghost use Rattle.stage_switch.specs.States.{IsUnused, Valve, IsValve, new_valve_of, follows_order, moves_by, counted_next, valve_port_state, ValveTurned, Trip, new_trip_of, trip_port_state, TripTurned};
ghost use Rattle.stage_switch.specs.Handling.{ValveFresh, ValvePortState, ValveAs, TripFresh, TripPortState, TripAs, trip_kind};

/// The law of a valve holds before anything came, and every call keeps it, once the call's actions are done; what a valve gave
/// over its history is what one that acted so may have given; and for every rest and every act that may still come, what it
/// gives in all is what it gave and what it gives from now on.
pub fn valves_keep_the_law()
    ensures new { (node : ℕ) (v : View) → length v.ins ≡ 1 → AllIdle v.ins → GaveAs (out_at v 0) unended → ValveLaw node (passes 0) v (λ _. []) [] }
    ensures call { (node : ℕ) (call : Call) (old new : ValveHeld) (v : View) (took : ℕ → List Item) (gave : List Item) (acts : List Act)
        → CallAllowed call v → ActsAllowed (seen call v) acts → ValveTurnAt node call old (given_on 0 acts) new → ValveLaw node old v took gave
        → ValveLaw node new (acted_all (seen call v) acts) (λ i. took i ++ brought_to i call) (gave ++ given_on 0 acts) }
    ensures stands { (node : ℕ) (x : ValveHeld) (v : View) (took : ℕ → List Item) (gave : List Item) → (law : ValveLaw node x v took gave)
        → ValveStandsOf node (did x) law.ins law.out_list law.out_end }
    ensures counts { (node : ℕ) (a : Acted) (v : View) (took : ℕ → List Item) (gave : List Item) → (law : ValveLaw node (shut a) v took gave)
        → GaveUpTo a (length law.out_list) }
    ensures residual { (node : ℕ) (call : Call) (n : ℕ) (out : List Item) (new : ValveHeld) → ValveTurnAt node call (passes n) out new
        → ValveResidual node call n out new }
    ensures rest { (node n : ℕ) (v : View) (took : ℕ → List Item) (gave : List Item) → (law : ValveLaw node (passes n) v took gave)
        → ValveRest node n law.ins law.out_list }
{}

/// A new valve, also one that follows none or an order and a count, and a new trip that counts from 1, may be started, and know that no
/// port was asked.
pub fn a_new_stage_may_start()
    ensures valve { (node : ℕ) (switch : SwitchState) (seat : SeatState) → IsUnused switch seat → ValveFresh (new_valve_of node switch seat) unpulled_ports }
    ensures following { (node : ℕ) (switch : SwitchState) (seat : SeatState) (moves : List ℕ) → IsUnused switch seat → moves ≡ moves_by (acted moves)
        → ValveFresh (follows_order moves (new_valve_of node switch seat)) unpulled_ports }
    ensures trip { (node : ℕ) (order : Order) (count : ℕ) (switch : SwitchState) (seat : SeatState) → IsUnused switch seat → 1 ≤ count
        → TripFresh (new_trip_of node order count switch seat) unpulled_ports }
{}

/// Where its port state and its law hold, a stage that was started has closed its ports, or has nothing to do: it waits for its input
/// and has given all that came, or nobody asks it. A valve that waits is asked, and has given all that came. A valve that does nothing
/// more has moves to make, and its input is over before so many came as they say, also by its outlook.
pub fn a_started_stage_rests()
    ensures valve { (first now : Valve) (v : View) (took gave : List (List Item)) → now.stuck ≡ false → ValvePortState now v
        → (law : ValveAs first now v took gave) → ValveRests v law.by.law.ins law.by.law.out_list }
    ensures misfit { (first now : Valve) (v : View) (took gave : List (List Item)) → now.stuck ≡ true → (law : ValveAs first now v took gave)
        → IsMove (next_move now.left) × ValveMisfits (counted_next now.left) law.by.law.ins }
    ensures cause { (is : List Outlook) (first now : Valve) (v : View) (took gave : List (List Item)) → now.stuck ≡ true
        → (law : ValveAs first now v took gave) → AllAgree is law.by.law.ins → ValveCause (counted_next now.left) is }
    ensures waits { (first now : Valve) (v : View) (took gave : List (List Item)) → ValvePortState now v → (law : ValveAs first now v took gave)
        → in_at v 0 ≡ Pulled → (out_at v 0 ≡ Available) × PassedAll law.by.law.ins law.by.law.out_list }
    ensures trip { (book : Book) (d : Decider) (first now : Trip) (v : View) (took gave : List (List Item)) → TripPortState now v
        → (law : TripAs first now v took gave)
        → OwnRests (linear book passing) (begin_work first.node d passing) false (in_at v 0) (out_at v 0) (law.law book d).in_list (law.law book d).out_list }
{}

/// Where the port rules allow a call of a handler and the port state holds, a stage that was started is open.
pub fn a_called_stage_is_open()
    ensures valve { (l : Valve) (call : Call) (v : View) → call ≢ starts → CallAllowed call v → ValvePortState l v → l.phase ≡ Open }
    ensures trip { (l : Trip) (call : Call) (v : View) → call ≢ starts → CallAllowed call v → TripPortState l v → l.phase ≡ Open }
{}

/// What a call owes to the port rules and to its turn is all that is asked of a stage: its start begins the law of its
/// histories, and every other call keeps it.
pub fn calls_keep_the_law()
    ensures valve_starts { (old new : Valve) (acts : List Act) → Obeys starts (valve_port_state old) (valve_port_state new) acts
        → ValveTurned starts old acts new → Starts ValvePortState ValveAs ValveFresh old new acts }
    ensures valve_handles { (call : Call) (old new : Valve) (acts : List Act) → Obeys call (valve_port_state old) (valve_port_state new) acts
        → ValveTurned call old acts new → Handles ValvePortState ValveAs call old new acts }
    ensures trip_starts { (old new : Trip) (acts : List Act) → Obeys starts (trip_port_state old) (trip_port_state new) acts → TripTurned starts old acts new
        → Starts TripPortState TripAs TripFresh old new acts }
    ensures trip_handles { (call : Call) (old new : Trip) (acts : List Act) → Obeys call (trip_port_state old) (trip_port_state new) acts
        → TripTurned call old acts new → Handles TripPortState TripAs call old new acts }
{}

/// Where its law holds, a valve gave what one that acted as its moves say may have given, and just so many elements as they
/// count; and where what came agrees with the outlook of its input, its moves fit, and what it gave agrees with the outlook
/// that the model has of its output by these moves.
pub fn a_valve_agrees_with_its_outlook()
    ensures stands { (first now : Valve) (v : View) (took gave : List (List Item)) → (law : ValveAs first now v took gave)
        → ValveStandsOf first.node (acted now.moves) law.by.law.ins law.by.law.out_list law.by.law.out_end }
    ensures counts { (first now : Valve) (v : View) (took gave : List (List Item)) → (law : ValveAs first now v took gave) → (order k : ℕ)
        → now.moves ≡ order ∷ k ∷ [] → length law.by.law.out_list ≡ k }
    ensures fits { (first now : Valve) (v : View) (took gave : List (List Item)) → (law : ValveAs first now v took gave) → (o : Outlook)
        → AllAgree (o ∷ []) law.by.law.ins → valve_fits now.moves o ≡ true }
    ensures agrees { (first now : Valve) (v : View) (took gave : List (List Item)) → (law : ValveAs first now v took gave)
        → (g : Graph) (w : World) (name : List ℕ) (d : Decider) (o : Outlook) → w.moves first.node ≡ now.moves
        → AllAgree (o ∷ []) law.by.law.ins → Agrees (node_outlook g w first.node (kind.Valve name) d (o ∷ []) 0) law.by.law.out_list law.by.law.out_end }
{}

/// Where its law holds, and what came agrees with the outlook of its input, what a trip gave agrees with the outlook that the
/// model has of its output.
pub fn a_trip_agrees_with_its_outlook()
    ensures { (g : Graph) (w : World) (name : List ℕ) (n : ℕ) (d : Decider) (o : Outlook) (order : Order) (first now : Trip) (v : View)
        (took gave : List (List Item)) → (law : TripAs first now v took gave)
        → Agrees o (law.law w.book d).in_list (law.law w.book d).in_end → Agrees (node_outlook g w first.node (trip_kind order name n) d (o ∷ []) 0)
        (law.law w.book d).out_list (law.law w.book d).out_end }
{}

/// Where its law holds, a valve that follows moves made the first of them: none, or all where they are none or an order and a count.
/// Its seat is of its switch, gave nothing and knows nothing. Where moves are to be made it gave no end, and no more elements than they
/// count.
pub fn a_valve_follows_its_moves()
    ensures plan { (first now : Valve) (v : View) (took gave : List (List Item)) → ValveAs first now v took gave
        → plan_of now.moves now.left ≡ plan_of first.moves first.left }
    ensures whole { (first now : Valve) (v : View) (took gave : List (List Item)) → ValveAs first now v took gave → (plan : List ℕ)
        → plan ≡ moves_by (acted plan) → first.moves ≡ [] → first.left ≡ Some plan → (now.moves ≡ []) ⊎ (now.moves ≡ plan) }
    ensures seat { (first now : Valve) (v : View) (took gave : List (List Item)) → ValveAs first now v took gave → (plan : List ℕ)
        → first.left ≡ Some plan → IsValve first.switch now.seat [] }
    ensures few { (first now : Valve) (v : View) (took gave : List (List Item)) → (law : ValveAs first now v took gave) → IsMove (next_move now.left)
        → (law.by.law.out_end ≡ unended) × (length law.by.law.out_list ≤ counted_next now.left) }
{}

/// What the laws tell of the seats, at every moment: each is of the switch that the stage was handed. That of a valve that makes its own
/// choices gave nothing, and knows an order exactly where the moves show it. That of a trip gave an order only where the element came at
/// which it gives it, and only that one, and knows an order from then on.
pub fn laws_tell_of_seats()
    ensures valve { (first now : Valve) (v : View) (took gave : List (List Item)) → ValveAs first now v took gave → first.left ≡ None
        → IsValve first.switch now.seat now.moves }
    ensures trip { (first now : Trip) (v : View) (took gave : List (List Item)) → (law : TripAs first now v took gave)
        → IsSeatOf first.switch now.seat × IfSome now.seat.gave (λ o. (o ≡ first.order) × (first.count ≤ elements law.took_list))
        × (first.count ≤ elements law.took_list → now.seat.knows ≢ None) }
{}
