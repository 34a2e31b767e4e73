// Laws of the linear stages: each function has no body, and its contract is the law.
ghost use Rattle.std.specs.Prelude.{◌≡◌, ◌≢◌, List};
ghost use Rattle.elem_core.specs.Tree.{Tree};
ghost use Rattle.elem_core.specs.declared.item.Item.{Item};
ghost use Rattle.port_core.specs.View.{View, in_at, out_at};
ghost use Rattle.port_core.specs.Call.{Call, starts, CallAllowed};
ghost use Rattle.stream_model.specs.Linear.{Book, Stage};
ghost use Rattle.stream_model.specs.Machine.{Run, Machine};
ghost use Rattle.stage_core.specs.Law.{Law};
ghost use Rattle.stage_core.specs.OwnPorts.{OwnRests};
ghost use Rattle.stream_model.specs.OneWay.{holds_at_end};
ghost use Rattle.stage_core.specs.declared.phase.Phase.TheVariants.{New, Open};
ghost use Rattle.stage_linear.specs.States.{Logic, held, port_state};

/// Where its port state and its law hold, a stage that was started has closed all its ports, or has nothing to do: it waits for its
/// input and has given all that it may, or nobody asks it, where a map_concat or a plug may hold outputs behind the end of its input.
pub fn a_started_stage_rests()
    ensures { (b : Book) (m : Machine Stage Tree) (start : Run Stage Tree) (took gave : List Item) (l : Logic) (v : View) → l.phase ≢ New → port_state l v
        → (law : Law m start (held b l) (in_at v 0) (out_at v 0) took gave) → OwnRests m start (holds_at_end l.stage.work) (in_at v 0)
        (out_at v 0) law.in_list law.out_list }
{}

/// Where the port rules allow a call of a handler and the port state holds, a stage that was started is open.
pub fn a_called_stage_is_open()
    ensures { (l : Logic) (call : Call) (v : View) → l.phase ≢ New → call ≢ starts → CallAllowed call v → port_state l v → l.phase ≡ Open }
{}
