// Laws: each function has no body, and its contract is the law.
ghost use Rattle.std.specs.Prelude.{◌≡◌, ◌<◌, ◌++◌, ℕ, List, [], length, slice_index_or};
ghost use Rattle.elem_core.specs.Tree.{Tree};
ghost use Rattle.elem_core.specs.declared.item.Item.{Item};
ghost use Rattle.port_core.specs.declared.act.Act.{Act};
ghost use Rattle.port_core.specs.View as port;
ghost use Rattle.port_core.specs.Call.{Call, CallAllowed, brought_to, given_on};
ghost use Rattle.stream_model.specs.FanIn.{Inflow};
ghost use Rattle.stream_model.specs.View.{EachWire};
ghost use Rattle.stream_model.specs.Rests.{IsShut};
ghost use Rattle.stage_core.specs.Histories.{brought_by, given_all};
ghost use Rattle.stage_core.specs.Seats.{FanClosed};
ghost use Rattle.stage_core.specs.OwnRows.{own_inputs, own_outputs};

/// A call adds to the history of each input what it brings there, and actions add to that of each output what they give there.
pub fn histories_go_by_ports()
    ensures brought { (call : Call) (took : List (List Item)) (i : ℕ) → i < length took
        → slice_index_or (brought_by call took) i [] ≡ slice_index_or took i [] ++ brought_to i call }
    ensures given { (acts : List Act) (gave : List (List Item)) (j : ℕ) → j < length gave
        → slice_index_or (given_all acts gave) j [] ≡ slice_index_or gave j [] ++ given_on j acts }
{}

/// Where all its ports are closed a stage is not called, and its wires are shut.
pub fn a_closed_stage_is_not_called()
    ensures uncalled { (call : Call) (v : port.View) → CallAllowed call v → FanClosed v → ⊥ }
    ensures shut { (v : port.View) (ins : List Inflow) (g : List Tree) → FanClosed v
        → EachWire IsShut (own_inputs v.ins ins) × EachWire IsShut (own_outputs v.outs g) }
{}
