// Laws of the stages with substreams: each function has no body, and its contract is the law.
ghost use Rattle.std.specs.Prelude.{◌≡◌, ◌≢◌, ◌+◌, ℕ, true, false, List, [], ◌∷◌, length, Option, Some};
ghost use Rattle.stage_core.specs.Fans.{untagged};
ghost use Rattle.elem_core.specs.Tree.{Tree};
ghost use Rattle.elem_core.specs.declared.item.Item.{Item};
ghost use Rattle.port_core.specs.ListFunction.{ListFunction};
ghost use Rattle.port_core.specs.View.{View, in_at, out_at};
ghost use Rattle.port_core.specs.declared.view.InView.TheVariants.{Pulled};
ghost use Rattle.port_core.specs.Call.{Call, starts, CallAllowed};
ghost use Rattle.stream_model.specs.FanIn.{Tagged};
ghost use Rattle.stream_model.specs.Machine.{Run, Given, Stands};
ghost use Rattle.stream_model.specs.Outlook.{End};
ghost use Rattle.stream_model.specs.Substreams.{Subs, substreams, begin_subs, MergedStands};
ghost use Rattle.stage_core.specs.Held.{owing};
ghost use Rattle.stage_core.specs.OwnPorts.{OwnRests};
ghost use Rattle.stage_core.specs.declared.phase.Phase.TheVariants.{New, Open};
ghost use Rattle.stage_sub.specs.Joined.{untag, joined_machine};
ghost use Rattle.stage_sub.specs.KeptSubs.{opening_of};
ghost use Rattle.stage_sub.specs.Handling.{SubPortState, TellsMachine, GaveAll};
ghost use Rattle.port_core.specs.Picks.{next_move};
ghost use Rattle.stream_model.specs.FanIn.{Inflow};
ghost use Rattle.stage_sub.specs.Leds.{Led, led_port_state};
ghost use Rattle.stage_sub.specs.LedLaws.{LedKeeps, MisfitBy, led_ready};
ghost use Rattle.stage_sub.specs.States.{Logic, port_state, Owes, begun};
ghost use Rattle.stage_sub.specs.declared.opening.OpenBy.{OpenBy};

use port_core::chain::Chain;

/// At any moment, what a stage with substreams gave is what the model lets it give of what it took: of substreams joined in the
/// order in which their outputs arise, and by its moves, where they are merged.
pub fn substreams_stand<C: Chain>()
    ensures concat { (f : ListFunction) (yields : List Tree → End → Given Tree) (node : ℕ) (first now : Logic C) (v : View) (took gave : List Item)
        → (t : TellsMachine C.rest C.is_open f yields (begin_subs yields node) first now v took gave)
        → (g : List Tagged) × ((untagged g ≡ t.law.out_list) × Stands (substreams yields (opening_of first.how))
        (begin_subs yields node) t.law.in_list t.law.in_end g t.law.out_end) }
    ensures merge { (f : ListFunction) (yields : List Tree → End → Given Tree) (node : ℕ) (first now : Logic C) (v : View) (took gave : List Item)
        → (t : TellsMachine C.rest C.is_open f yields (begin_subs yields node) first now v took gave)
        → (ms : List ℕ) → now.moves ≡ Some ms → MergedStands yields node (opening_of first.how) ms t.law.in_list t.law.in_end t.law.out_list t.law.out_end }
{}

/// A new stage owes what its machine gives from the start, whatever its chains come to.
pub fn a_new_stage_owes_its_machine<C: Chain>()
    ensures { (f : ListFunction) (yields : List Tree → End → Given Tree) (node : ℕ) (how : OpenBy) (moves : Option (List ℕ)) (chain : C)
        → Owes C.rest C.is_open f yields (begun node how moves chain) (owing (untag (begin_subs yields node))) }
{}

/// Where its port state and its law hold, a stage that was started has closed both its ports, or has nothing to do: it waits for its
/// input and has given all that it may, or nobody asks it, where it may hold outputs behind the end of its input.
pub fn a_started_stage_rests<C: Chain>()
    ensures { (f : ListFunction) (yields : List Tree → End → Given Tree) (start : Run Subs Tagged) (first now : Logic C) (v : View) (took gave : List Item)
        → SubPortState C.rest C.is_open now v
        → (t : TellsMachine C.rest C.is_open f yields start first now v took gave)
        → OwnRests (joined_machine yields (opening_of first.how)) (untag start) true (in_at v 0) (out_at v 0) t.law.in_list t.law.out_list }
{}

/// A stage that waits for its input is asked, and it gave all that its machine gives for what it took, which goes on.
pub fn a_waiting_stage_gave_all<C: Chain>()
    ensures { (f : ListFunction) (yields : List Tree → End → Given Tree) (start : Run Subs Tagged) (first now : Logic C) (v : View) (took gave : List Item)
        → SubPortState C.rest C.is_open now v
        → (t : TellsMachine C.rest C.is_open f yields start first now v took gave) → in_at v 0 ≡ Pulled
        → GaveAll (joined_machine yields (opening_of first.how)) (untag start) (out_at v 0) t.law.in_list t.law.out_list }
{}

/// Where the port rules allow a call of a handler and the port state holds, a stage that was started is open.
pub fn a_called_stage_is_open<C: Chain>()
    ensures { (l : Logic C) (call : Call) (v : View) → l.phase ≢ New → call ≢ starts → CallAllowed call v → port_state l v → l.phase ≡ Open }
{}

/// The same of one that may follow moves.
pub fn a_called_stage_is_open_too<C: Chain>()
    ensures { (l : Led C) (call : Call) (v : View) → l.logic.phase ≢ New → CallAllowed call v → led_port_state l v → l.logic.phase ≡ Open }
{}

/// At any moment, what a stage that follows moves gave is what the model lets a merge of substreams give of what it took, by the moves that it
/// made.
pub fn led_substreams_stand<C: Chain>()
    ensures { (f : ListFunction) (yields : List Tree → End → Given Tree) (node : ℕ) (first now : Led C) (ms : List ℕ) (w : Inflow) (g : List Tree) (e : End)
        → now.logic.moves ≡ Some ms → LedKeeps yields (opening_of first.logic.how) (begin_subs yields node) C.rest C.is_open f now (w ∷ []) g e
        → MergedStands yields node (opening_of first.logic.how) ms w.list w.end g e }
{}

/// A misfit has its cause, over what came: behind all elements all outputs of the substream of the next move were given while another's were
/// not; or the input has ended, and all outputs of that substream were given.
pub fn a_misfit_has_its_cause<C: Chain>()
    ensures { (f : ListFunction) (yields : List Tree → End → Given Tree) (start : Run Subs Tagged) (first now : Led C) (ms : List ℕ) (w : Inflow)
        (g : List Tree) (e : End)
        → now.logic.moves ≡ Some ms → now.stuck ≡ true → LedKeeps yields (opening_of first.logic.how) start C.rest C.is_open f now (w ∷ []) g e
        → MisfitBy yields (opening_of first.logic.how) start (next_move now.left) ms w }
{}

/// One that is open and did not stop gave, and holds, as many outputs as are ready.
pub fn a_led_stage_loses_nothing<C: Chain>()
    ensures { (f : ListFunction) (yields : List Tree → End → Given Tree) (start : Run Subs Tagged) (first now : Led C) (w : Inflow) (g : List Tree) (e : End)
        → now.stuck ≡ false → now.logic.phase ≡ Open → LedKeeps yields (opening_of first.logic.how) start C.rest C.is_open f now (w ∷ []) g e
        → length g + length now.logic.pending ≡ length (led_ready yields (opening_of first.logic.how) start w) }
{}
