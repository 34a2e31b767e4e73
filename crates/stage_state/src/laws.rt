// Laws of the stages with state: each function has no body, and its contract is the law.
ghost use Rattle.std.specs.Prelude.{◌≡◌, ◌≢◌, ℕ, List, Some, None};
ghost use Rattle.elem_core.specs.Tree.{Tree};
ghost use Rattle.elem_core.specs.declared.item.Item.{Item};
ghost use Rattle.port_core.specs.View.{View, in_at, out_at};
ghost use Rattle.port_core.specs.Call.{Call, starts, CallAllowed};
ghost use Rattle.stream_model.specs.Linear.{Stage};
ghost use Rattle.stream_model.specs.Machine.{Run, Machine, Stands};
ghost use Rattle.stream_model.specs.Outlook.{Outlook, End, Agrees, lane_outlook};
ghost use Rattle.stream_model.specs.OneWay.{holds_at_end};
ghost use Rattle.stage_core.specs.Law.{Law};
ghost use Rattle.stage_core.specs.OwnPorts.{OwnRests};
ghost use Rattle.stage_core.specs.declared.phase.Phase.TheVariants.{New, Open};
ghost use Rattle.stage_state.specs.Buffering.{buffer};
ghost use Rattle.stage_state.specs.Resting.{begin_buffer, BufferOwnRests};
ghost use Rattle.stage_state.specs.States.{Logic, held, port_state};
ghost use Rattle.stage_state.specs.Handling.{StatePortState};
ghost use Rattle.stage_state.specs.Logics.{phase_of};
ghost use Rattle.stage_state.specs.declared.logic.StateLogic.{StateLogic};

/// Where its port state and its law hold, a stage that was started has closed all its ports, or has nothing to do: it waits for its
/// input and has given all that it may, or nobody asks it; a buffer waits while it has room.
pub fn a_started_stage_rests()
    ensures keeps { (m : Machine Stage Tree) (start : Run Stage Tree) (took gave : List Item) (l : Logic) (v : View) → l.size ≡ None → l.phase ≢ New
        → port_state l v
        → (law : Law m start (held l) (in_at v 0) (out_at v 0) took gave) → OwnRests m start (holds_at_end l.stage.work) (in_at v 0)
        (out_at v 0) law.in_list law.out_list }
    ensures buffers { (n : ℕ) (s : Stage) (took gave : List Item) (l : Logic) (v : View) → l.size ≡ Some n → l.phase ≢ New → port_state l v
        → (law : Law (buffer n) (begin_buffer s) (held l) (in_at v 0) (out_at v 0) took gave)
        → BufferOwnRests n (in_at v 0) (out_at v 0) law.in_list law.out_list }
{}

/// Where the port rules allow a call of a handler and its port state holds, a stage that was started is open.
pub fn a_called_stage_is_open()
    ensures { (l : StateLogic) (call : Call) (v : View) → call ≢ starts → CallAllowed call v → StatePortState l v → phase_of l ≡ Open }
{}

/// What a buffer of n may have given agrees with the outlook of its input behind a lane of n.
pub fn a_buffer_is_a_lane()
    ensures { (n : ℕ) (s : Stage) (o : Outlook) (l : List Tree) (e : End) (g : List Tree) (f : End) → Agrees o l e → Stands (buffer n) (begin_buffer s) l e g f
        → Agrees (lane_outlook n o) g f }
{}
