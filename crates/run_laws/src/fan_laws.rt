// Laws: each function has no body, and its contract is the law.
ghost use Rattle.std.specs.Prelude.{◌≡◌, ℕ, List, length};
ghost use Rattle.elem_core.specs.declared.item.Item.{Item};
ghost use Rattle.port_core.specs.View.{View};
ghost use Rattle.stream_model.specs.declared.kind.Kind.{Kind};
ghost use Rattle.stream_model.specs.Composed.{inputs_of};
ghost use Rattle.stream_model.specs.Linear.{Book};
ghost use Rattle.stream_model.specs.Graph.{Graph};
ghost use Rattle.stream_model.specs.Graph as graph;
ghost use Rattle.stream_model.specs.Node.{World};
ghost use Rattle.stage_in.specs.declared.logic.InLogic.{InLogic};
ghost use Rattle.stage_in.specs.Logics as stage_in;
ghost use Rattle.stage_in.specs.Logics.{InAsking, InPortState, InLaw};
ghost use Rattle.stage_in.specs.Moves.{in_moves, in_plan, TellsMoves};
ghost use Rattle.stage_out.specs.declared.logic.OutLogic.{OutLogic};
ghost use Rattle.stage_out.specs.OutLogics as stage_out;
ghost use Rattle.stage_out.specs.Moves as choice;
ghost use Rattle.stage_out.specs.Moves.{out_moves};
ghost use Rattle.stage_out.specs.OutLogics.{port_state, OutAsking, OutLaw};
ghost use Rattle.run_laws.specs.KindLaws.{HearsAll, PictureLawsBy, RunLaws};
ghost use Rattle.run_laws.specs.Ports.{InPort, OutPort, views_of, gots_of, sents_of};
ghost use Rattle.run_laws.specs.Replayed.{Plans};
ghost use Rattle.run_laws.specs.Unmoved.{never_ends};

/// A concat, an interleave, a merge_sorted, a zip or a merge meets the rows of its kind: that of a lawful picture by the moments
/// of its asks, that of a merge by its moves too, and where no event is left that of one that rests, or the cause of a misfit, by this plan.
pub fn a_node_with_several_inputs_tells_its_rows()
    ensures { (g : Graph) (w : World) (plans : Plans) (k : ℕ) (n : graph.Node) (first now : InLogic) (is : List InPort) (os : List OutPort)
        → stage_in.Begins k n.kind n.decider first → TellsMoves w k now → plans k ≡ in_plan first → InPortState now (views_of is os)
        → InLaw first now (views_of is os) (gots_of is) (sents_of os)
        → PictureLawsBy InPortState InLaw InAsking in_moves never_ends g w plans k n first now is os }
{}

/// A broadcast, an unzip or a partition does too; and a balance, where the world tells the moves that it recorded.
pub fn a_node_with_several_outputs_tells_its_rows()
    ensures { (g : Graph) (w : World) (plans : Plans) (k : ℕ) (n : graph.Node) (first now : OutLogic) (is : List InPort) (os : List OutPort)
        → stage_out.Begins k n.kind first → choice.TellsMoves w k now → plans k ≡ choice.out_plan first → port_state now (views_of is os)
        → OutLaw first now (views_of is os) (gots_of is) (sents_of os)
        → PictureLawsBy port_state OutLaw OutAsking out_moves never_ends g w plans k n first now is os }
{}

/// Where what came in agrees with the outlooks of their inputs, the moves of such nodes fit, and what they gave agrees with the
/// outlooks that the model has of their outputs by the moves that they recorded; and what came at each input is a list and an
/// end, which is known there.
pub fn nodes_with_several_ports_agree()
    ensures ins { (g : Graph) (w : World) (k : ℕ) (n : graph.Node) (first now : InLogic) (v : View) (took gave : List (List Item))
        → stage_in.Begins k n.kind n.decider first → length took ≡ inputs_of n → TellsMoves w k now
        → InLaw first now v took gave → RunLaws g w k n took gave }
    ensures outs { (g : Graph) (w : World) (k : ℕ) (n : graph.Node) (first now : OutLogic) (v : View) (took gave : List (List Item))
        → stage_out.Begins k n.kind first
        → choice.TellsMoves w k now → OutLaw first now v took gave → RunLaws g w k n took gave }
    ensures ins_heard { (first now : InLogic) (v : View) (took gave : List (List Item)) → InLaw first now v took gave → HearsAll v took }
    ensures outs_heard { (book : Book) (k : ℕ) (kind : Kind) (first now : OutLogic) (v : View) (took gave : List (List Item)) → stage_out.Begins k kind first
        → OutLaw first now v took gave → HearsAll v took }
{}
