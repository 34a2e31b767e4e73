// A run whose book of lists has what a custom stage tells.
ghost use Rattle.std.specs.Prelude.{◌≡◌, ◌∷◌, [], IfOk};
ghost use Rattle.std.specs.List.{All};
ghost use Rattle.elem_core.specs.Sort.{text_type};
ghost use Rattle.graph_stage.specs.Lifted.{not_begun};
ghost use Rattle.graph_stage.specs.Told.{HandedAs, list_of};
ghost use Rattle.call_tests.specs.ToldDedup.{told_dedup, told_dedups};

use crate::lifted::{LIMITED, TEXTS};
use crate::lines::line_of;
use crate::plug_calls::call_by;
use elem_core::elem_type::{ElemType, TypeForm};
use graph_stage::custom::Custom;
use graph_stage::handlers::Handlers;
use plug_logic::book::PlugBook;
use plug_logic::dedup::Dedup;
use std::alloc::{AllocError, Global};
use std::test::Fail;
use stream_model::head::CustomHead;
use told_stage::lift::Lift;

/// The book in which each custom stage tells what a lifted dedup of texts gives.
struct ToldDedups;

impl PlugBook for ToldDedups {
    ghost lists = { told_dedups };
}

/// A dedup of texts as a custom stage. It takes no memory.
fn lifted_dedup() -> Lift<Dedup>
    ensures { ⟦<Lift<Dedup> as Handlers>⟧.tells result ≡ list_of told_dedup not_begun }
{
    Lift::of(ElemType::of(TypeForm::Text), Dedup::new())
}

/// The same in a box.
fn boxed(alloc: Global) -> Result<Box<Lift<Dedup>>, AllocError>
    ensures { IfOk result (λ b. ⟦<Lift<Dedup> as Handlers>⟧.tells b.value ≡ list_of told_dedup not_begun) }
{
    Ok(Box::new(alloc, lifted_dedup())?)
}

/// The type of texts alone.
fn only_text(alloc: Global) -> Result<Vec<ElemType>, AllocError>
    ensures { IfOk result (λ types. types.items ≡ text_type ∷ []) }
{
    let mut types = Vec::new(alloc);
    types.push(ElemType::of(TypeForm::Text))?;
    Ok(types)
}

/// One custom stage of texts alone, which tells what that book has.
fn only(alloc: Global, stage: Box<dyn Handlers + Send>) -> Result<Vec<Custom>, AllocError>
    requires { tells stage ≡ list_of told_dedup not_begun }
    ensures { IfOk result (λ customs. All (λ c. HandedAs (told_dedups.tells c.head.name) told_dedups c.head.name c.head.inputs.items c.head.outputs.items
        (tells c.stage)) customs.items) }
{
    let head = CustomHead {
        name: line_of(alloc, "lifted")?,
        inputs: only_text(alloc)?,
        outputs: only_text(alloc)?,
    };
    let mut customs = Vec::new(alloc);
    customs.push(Custom { head, stage })?;
    Ok(customs)
}

/// It gives what it tells, and a failure passes it.
#[test]
fn a_stage_that_tells_its_list_gives_it(rt: HostRuntime) -> Result<(), Fail> {
    let alloc = rt.alloc();
    for (text, input, said, left) in [
        (
            TEXTS,
            "a\na\nb\na\n",
            "done\nsink out ended 3\n",
            "a\nb\na\n",
        ),
        (
            LIMITED,
            "a\nb\n",
            "failed\nsink out failed 1 stage 1 nth 2 why 6\n",
            "a\n",
        ),
    ] {
        let customs = only(alloc, boxed(alloc)?)?;
        let plugs = Vec::new(alloc);
        let came = call_by::<HostRuntime, ToldDedups>(
            &rt, alloc, text, input, "1", plugs, customs,
        )?;
        assert!(rt; came.says(said));
        assert!(rt; came.holds(alloc, "out.txt", left)?);
    }
    Ok(())
}
