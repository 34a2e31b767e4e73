// Laws: each function has no body, and its contract is the law.
ghost use Rattle.std.specs.Prelude.{◌≡◌, ◌⊎◌, true, ℕ, List, [], Some, length, replicate, slice_get};
ghost use Rattle.elem_core.specs.Sort.{Sort};
ghost use Rattle.elem_core.specs.declared.item.Item.{Item};
ghost use Rattle.elem_core.specs.declared.why.Cause.{Cause};
ghost use Rattle.elem_core.specs.declared.why.Decider.{Decider};
ghost use Rattle.port_core.specs.declared.act.Act.{Act};
ghost use Rattle.port_core.specs.View.{View, in_at, out_at, ActsAllowed, acted_all};
ghost use Rattle.port_core.specs.Asking.{PullsStand};
ghost use Rattle.stream_model.specs.Linear.{Book, told_book};
ghost use Rattle.stream_model.specs.declared.kind.Kind.TheVariants as kind;
ghost use Rattle.stage_core.specs.Law.{TookAs, GaveAs};
ghost use Rattle.stage_linear.specs.Handling.{LinearLaw, LinearPortState};
ghost use Rattle.stage_linear.specs.States.{Begins};
ghost use Rattle.graph_stage.specs.declared.ask.Ask.{Ask};
ghost use Rattle.graph_stage.specs.declared.occasion.Occasion.{Occasion};
ghost use Rattle.graph_stage.specs.Failing.{AnyFailed, IsOwnCause};
ghost use Rattle.graph_stage.specs.Laws.{CustomLaw};
ghost use Rattle.graph_stage.specs.OwnView.{Seen, carried_out};
ghost use Rattle.graph_stage.specs.Passed.{PassedUpTo, ItemsTyped};
ghost use Rattle.graph_stage.specs.Plugged.{as_plug};
ghost use Rattle.graph_stage.specs.Ports.{Sees};
ghost use Rattle.graph_stage.specs.Pushes.{PushesTyped};
ghost use Rattle.graph_stage.specs.Standing.{without_taken_back};
ghost use Rattle.graph_stage.specs.State.{CustomState, done_gave};

/// Actions without the pulls of inputs that are closed once all is done are allowed where all are, lead to the same, and pull no input
/// that they cancel.
pub fn pulls_can_be_taken_back()
    ensures allowed { (s : Seen) (v : View) (acts : List Act) → length v.ins ≡ length s.ins → ActsAllowed v acts → Sees (acted_all v acts) s
        → ActsAllowed v (without_taken_back s acts) }
    ensures same { (s : Seen) (v : View) (acts : List Act) → length v.ins ≡ length s.ins → ActsAllowed v acts → Sees (acted_all v acts) s
        → acted_all v (without_taken_back s acts) ≡ acted_all v acts }
    ensures stands { (s : Seen) (v : View) (acts : List Act) → length v.ins ≡ length s.ins → ActsAllowed v acts → Sees (acted_all v acts) s
        → PullsStand (without_taken_back s acts) }
{}

/// Whatever a stage asks for, only elements of an output's type are pushed there.
pub fn only_typed_elements_are_pushed()
    ensures { (types : List Sort) (o : Occasion) (s : Seen) (asks : List Ask) → PushesTyped types (carried_out types o s asks).acts }
{}

/// Over a run of a custom stage, whatever its handlers do: what passed at each port is a list and an end, which the stage knows of; what it
/// gave is of the types of its outputs (`typed`), and told by the actions that it noted (`given`); and it stays the logic of its node.
pub fn a_custom_stage_keeps_its_ports()
    ensures inputs { (b : Book) (first now : CustomState) (v : View) (took gave : List (List Item)) → CustomLaw b first now v took gave
        → (length took ≡ length v.ins) × ((i : ℕ) (items : List Item) → slice_get took i ≡ Some items → PassedUpTo (TookAs (in_at v i)) items) }
    ensures outputs { (b : Book) (first now : CustomState) (v : View) (took gave : List (List Item)) → CustomLaw b first now v took gave
        → (length gave ≡ length v.outs) × ((j : ℕ) (items : List Item) → slice_get gave j ≡ Some items → PassedUpTo (GaveAs (out_at v j)) items) }
    ensures typed { (b : Book) (first now : CustomState) (v : View) (took gave : List (List Item)) → CustomLaw b first now v took gave
        → (j : ℕ) (items : List Item) → slice_get gave j ≡ Some items → ItemsTyped (slice_get first.types j) items }
    ensures given { (b : Book) (first now : CustomState) (v : View) (took gave : List (List Item)) → CustomLaw b first now v took gave
        → gave ≡ done_gave now.done (replicate (length first.sight.outs) []) }
    ensures same { (b : Book) (first now : CustomState) (v : View) (took gave : List (List Item)) → CustomLaw b first now v took gave
        → (now.node ≡ first.node) × (now.types ≡ first.types) }
{}

/// A failure that a custom stage gave is its own, by a number that its handlers asked for or by the rule that they broke, or it came to
/// one of its inputs.
pub fn a_custom_stage_blames_itself()
    ensures { (b : Book) (first now : CustomState) (v : View) (took gave : List (List Item)) → CustomLaw b first now v took gave
        → (c : Cause) → AnyFailed c gave → IsOwnCause first.node c ⊎ AnyFailed c took }
{}

/// A custom stage that tells a list by a book is the stage of a plug that gives it: it begins as that does (`begins`), keeps its law (`law`) and
/// has its port state (`ports`). So whatever is known of a plug is known of it.
pub fn a_stage_that_tells_is_a_plug()
    ensures begins { (b : Book) (d : Decider) (first now : CustomState) (v : View) (took gave : List (List Item)) → b.tells first.name ≡ true
        → CustomLaw b first now v took gave → Begins first.node (kind.Plug first.name) d (as_plug d first) }
    ensures law { (b : Book) (d : Decider) (first now : CustomState) (v : View) (took gave : List (List Item)) → b.tells first.name ≡ true
        → CustomLaw b first now v took gave → LinearLaw (told_book b) (as_plug d first) (as_plug d now) v took gave }
    ensures ports { (b : Book) (d : Decider) (first now : CustomState) (v : View) (took gave : List (List Item)) → b.tells first.name ≡ true
        → CustomLaw b first now v took gave → LinearPortState (as_plug d now) v }
{}
