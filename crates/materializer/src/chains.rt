// The chains of a blueprint, by the stages that name them.
ghost use Rattle.std.specs.Prelude.{◌≡◌, map};
ghost use Rattle.line_chain.specs.Line.{model_step};
ghost use Rattle.materializer.specs.Graphs.{graph_chain};
ghost use Rattle.run_laws.specs.Made.{chain_name};
ghost use Rattle.stage_sub.specs.Handling.{IsSub};
ghost use Rattle.stream_model.specs.Graph.{steps_of};

use elem_core::line::Line;
use stream_model::blueprint::{ChainDecl, Step};
use stream_model::kind::Kind;

// Choice: docs/DECISIONS.md#chains-are-looked-for
/// The steps of the chain of that name; none where there is no such chain.
fn steps_named<'a>(chains: &'a [ChainDecl], name: &Line) -> &'a [Step]
    ensures { map model_step result.now ≡ steps_of name.now (map graph_chain chains.now) }
{
    for chain in chains {
        if chain.name == *name {
            return &chain.steps;
        }
    }
    &[]
}

/// The steps of the chain through which each substream of a stage of this kind goes.
pub(crate) fn steps_of_kind<'a>(chains: &'a [ChainDecl], kind: &Kind) -> &'a [Step]
    requires { IsSub kind.now }
    ensures { map model_step result.now ≡ steps_of (chain_name kind.now) (map graph_chain chains.now) }
{
    match kind {
        Kind::GroupBy(_, _, name) | Kind::SplitWhen(_, name, _) | Kind::SplitAfter(_, name, _) => {
            steps_named(chains, name)
        }
        _ => &[],
    }
}
