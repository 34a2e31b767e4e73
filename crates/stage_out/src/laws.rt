// Laws of the stages with several outputs: each function has no body, and its contract is the law.
ghost use Rattle.std.specs.Prelude.{◌≡◌, ◌<◌, ◌≤◌, ℕ, true, List, [], length, slice_index_or};
ghost use Rattle.elem_core.specs.Prefix.{IsPrefix};
ghost use Rattle.elem_core.specs.Tree.{Tree};
ghost use Rattle.elem_core.specs.declared.item.Item.{Item};
ghost use Rattle.port_core.specs.declared.act.Act.{Act};
ghost use Rattle.port_core.specs.View.{View};
ghost use Rattle.port_core.specs.Call.{Call, starts, CallAllowed, Obeys};
ghost use Rattle.elem_core.specs.declared.why.Decider.{Decider};
ghost use Rattle.stream_model.specs.declared.kind.Kind.{Kind};
ghost use Rattle.stream_model.specs.Graph.{Graph};
ghost use Rattle.stream_model.specs.Linear.{Book};
ghost use Rattle.stream_model.specs.Node.{World, head_of, node_outlook};
ghost use Rattle.stream_model.specs.Outlook.{Outlook, End, Agrees};
ghost use Rattle.stage_core.specs.Rooms.{acts_for};
ghost use Rattle.stage_core.specs.Handling.{Starts, Handles, PullsAs};
ghost use Rattle.stage_core.specs.Held.{told};
ghost use Rattle.stage_core.specs.Outs.{OutsLaw};
ghost use Rattle.stage_out.specs.declared.machines.OutMachines.{OutMachines};
ghost use Rattle.stage_out.specs.declared.logic.OutLogic.{OutLogic};
ghost use Rattle.stage_out.specs.Machines.{TurnsEach, outlets};
ghost use Rattle.stage_out.specs.Machines as machines;
ghost use Rattle.stage_out.specs.MachineNodes.{MachinesLaw, GaveAgrees};
ghost use Rattle.stage_out.specs.OutLogics.{is_live, room_of, port_state, OutAsking, Turned, OutFresh, OutLaw};
ghost use Rattle.stage_out.specs.Moves.{out_moves};
ghost use Rattle.stage_out.specs.OwnRows.{OutLists, OutputsRest};

/// Where each output is a machine over the input, what a call owes is a turn at each output, whose machines stay.
pub fn a_call_turns_each_output()
    ensures { (call : Call) (old new : OutMachines) (acts : List Act) → machines.is_live old ≡ true → machines.Turned call old acts new
        → TurnsEach call old acts new }
{}

/// Where the port rules allow a call of a handler and the port state holds, its ports are not all closed: it is live.
pub fn a_called_stage_is_open()
    ensures { (l : OutLogic) (call : Call) (v : View) → CallAllowed call v → port_state l v → is_live l ≡ true }
{}

/// Where the port rules allow a call of a handler and the port state holds, the room that the call wants is within what every stage
/// is given.
pub fn a_call_wants_little_room()
    ensures { (l : OutLogic) (call : Call) (v : View) → CallAllowed call v → port_state l v → room_of l ≤ acts_for v }
{}

/// Where its port state and the law of its outputs hold, a stage whose outputs are machines has closed its ports or has nothing to do,
/// for the lists that its outputs were given.
pub fn a_stage_rests()
    ensures { (book : Book) (l : OutMachines) (v : View) (took : List Item) (gave : ℕ → List Item) (taken : List Tree) (e : End) → machines.port_state l v
        → took ≡ told taken e → OutsLaw 0 (outlets book l) v took gave
        → (o : OutLists (length (outlets book l)) gave) × OutputsRest l v taken o.lists }
{}

/// What a handler owes to the port rules and to the law is all that is asked of a stage: its start begins the law of its
/// histories, and every other call keeps it; where it asks, it knows what it tells of its asks; and its moves only grow.
pub fn calls_keep_the_law()
    ensures starts { (old new : OutLogic) (acts : List Act) → Obeys starts (port_state old) (port_state new) acts → Turned starts old acts new
        → Starts port_state OutLaw OutFresh old new acts }
    ensures handles { (call : Call) (old new : OutLogic) (acts : List Act) → Obeys call (port_state old) (port_state new) acts → Turned call old acts new
        → Handles port_state OutLaw call old new acts }
    ensures pulls { (call : Call) (old new : OutLogic) (acts : List Act) → Turned call old acts new → PullsAs call (port_state old) (OutAsking new) acts }
    ensures grows { (call : Call) (old new : OutLogic) (acts : List Act) → Turned call old acts new → IsPrefix (out_moves old) (out_moves new) }
{}

/// Where its law holds from a new stage of this kind on, whose outputs are machines, and what came to its input agrees with
/// that input's outlook, what it gave at each output agrees with the outlook that the model has of it.
pub fn a_stage_agrees_with_its_outlooks()
    ensures { (g : Graph) (w : World) (node : ℕ) (kind : Kind) (d : Decider) (is : List Outlook) (first now : OutMachines) (v : View)
        (took gave : List (List Item)) → machines.Begins node kind first → (law : MachinesLaw first now v took gave)
        → (l : List Tree) (e : End) → law.taken ≡ told l e → Agrees (head_of is) l e → (j : ℕ) → j < length gave
        → GaveAgrees (node_outlook g w node kind d is j) (slice_index_or gave j []) }
{}
