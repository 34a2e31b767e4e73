ghost use Rattle.std.specs.Prelude.{◌≡◌, ◌<◌, [], length, map, IfOk, OnOk};
ghost use Rattle.step_work.specs.LineChains.{end_step};
ghost use Rattle.stream_model.specs.Node.{chain_of};
ghost use Rattle.line_chain.specs.Line.{Line, line_whole, line_rest, line_is_open, model_step, IsLine};
ghost use Rattle.line_chain.specs.Chains.{starts_of, nows_of, RanAt, RanAll};
ghost use Rattle.line_chain.specs.Steps.{end_of};

use crate::batch::Batch;
use crate::kind::StepKind;
use crate::step::LineStep;
use elem_core::elem::Elem;
use elem_core::elems::Elems;
use elem_core::why::NoMemory;
use port_core::chain::{Chain, ChainStep};
use std::alloc::Global;
use std::marker::Model;
use std::mem;
use step_work::ending::StateEnd;
use stream_model::blueprint::Step;

// Choice: docs/DECISIONS.md#steps-without-handlers
/// A chain of linear stages. A call runs the steps one after another: what one gives the next takes. It stands for a
/// subflow of the Akka Streams 2.6 reference.
#[derive(Drop)]
pub struct LineChain {
    steps: Vec<LineStep>,
    // It may be called: no call answered that it stopped, and its input has not ended.
    callable: bool,
    // What the next step takes, and what the step before gave. They are kept for their memory, and empty between calls.
    inputs: Batch,
    outputs: Batch,
}

impl Model for LineChain {
    ghost use Rattle.std.specs.Coded.{codes};
    ghost use Rattle.elem_core.specs.TreeCode.{tree_coded};
    ghost use Rattle.line_chain.specs.Line.{Line};

    ghost Value = { Line };

    ghost coded = { Prim.hlevel (codes, tree_coded) };

    ghost use Rattle.line_chain.specs.Chains.{starts_of, nows_of};

    ghost view = { λ l. record { starts = starts_of l.steps.items; now = nows_of l.steps.items; callable = l.callable } };
}

impl LineChain {
    // Choice: docs/DECISIONS.md#no-plugs-in-chains
    /// The chain of these steps, at node `node`, which has taken nothing. A step that is no stage passes what it takes. A chain
    /// with a plug, which no text can say, is not made: that counts as want of memory.
    pub fn new(alloc: Global, node: u32, steps: &[Step]) -> Result<LineChain, NoMemory>
        ensures { IfOk result (IsLine node (map model_step steps.now)) }
    {
        let steps = begin_all(alloc, node, steps)?;
        Ok(LineChain {
            steps,
            callable: true,
            inputs: Batch::new(alloc),
            outputs: Batch::new(alloc),
        })
    }
}

impl Chain for LineChain {
    ghost whole = { line_whole };

    ghost rest = { line_rest };

    ghost is_open = { line_is_open };

    fn fresh(&self, alloc: Global) -> Result<LineChain, NoMemory> {
        let steps = begin_again(alloc, &self.steps)?;
        Ok(LineChain {
            steps,
            callable: true,
            inputs: Batch::new(alloc),
            outputs: Batch::new(alloc),
        })
    }

    fn push(&mut self, alloc: Global, e: Elem, out: &mut Elems) -> Result<ChainStep, NoMemory> {
        self.inputs.clear();
        self.inputs.add(e)?;
        let ending = run_all(
            alloc,
            &mut self.steps,
            &mut self.inputs,
            StateEnd::Lasting,
            &mut self.outputs,
            out,
        )?;
        match ending {
            StateEnd::Lasting => Ok(ChainStep::Go),
            StateEnd::Ended => {
                self.callable = false;
                Ok(ChainStep::Closed)
            }
            StateEnd::Failed(cause) => {
                self.callable = false;
                Ok(ChainStep::Failed(cause.why))
            }
        }
    }

    // Choice: docs/DECISIONS.md#called-until-it-stopped
    fn end(&mut self, alloc: Global, out: &mut Elems) -> Result<ChainStep, NoMemory> {
        self.inputs.clear();
        self.callable = false;
        let ending = run_all(
            alloc,
            &mut self.steps,
            &mut self.inputs,
            StateEnd::Ended,
            &mut self.outputs,
            out,
        )?;
        Ok(last_answer(ending))
    }
}

// How the chain answers the end of its input, by how what its last step gave stands.
fn last_answer(ending: StateEnd) -> ChainStep
    ensures { result ≡ end_step (end_of ending) }
{
    match ending {
        StateEnd::Lasting | StateEnd::Ended => ChainStep::Go,
        StateEnd::Failed(cause) => ChainStep::Failed(cause.why),
    }
}

// The steps at node `node`, which have taken nothing.
fn begin_all(alloc: Global, node: u32, steps: &[Step]) -> Result<Vec<LineStep>, NoMemory>
    ensures starts { IfOk result (λ v. starts_of v.items ≡ chain_of node (map model_step steps.now)) }
    ensures now { IfOk result (λ v. nows_of v.items ≡ starts_of v.items) }
{
    let mut begun = Vec::with_capacity(alloc, steps.len())?;
    for step in steps {
        let kind = StepKind::of(alloc, &step.kind)?;
        let one = LineStep::begin(alloc, node, step.decider, kind)?;
        begun.push(one)?;
    }
    Ok(begun)
}

// The steps as they began.
fn begin_again(alloc: Global, steps: &[LineStep]) -> Result<Vec<LineStep>, NoMemory>
    ensures starts { IfOk result (λ v. starts_of v.items ≡ starts_of steps.now) }
    ensures now { IfOk result (λ v. nows_of v.items ≡ starts_of steps.now) }
{
    let mut begun = Vec::with_capacity(alloc, steps.len())?;
    for step in steps {
        let one = step.fresh(alloc)?;
        begun.push(one)?;
    }
    Ok(begun)
}

// The steps take all of `inputs`, which stand so: what the last gives is put behind `out`, and the answer is how it stands.
fn run_all(
    alloc: Global,
    steps: &mut Vec<LineStep>,
    inputs: &mut Batch,
    ending: StateEnd,
    outputs: &mut Batch,
    out: &mut Elems,
) -> Result<StateEnd, NoMemory>
    ensures { IfOk result (λ e. RanAll steps.old.items inputs.old (end_of ending) steps.new.items out.old out.new (end_of e)) }
{
    outputs.clear();
    let mut ending = ending;
    let mut i: usize = 0;
    while i < steps.len() {
        ending = run_at(alloc, steps, i, inputs, ending, outputs)?;
        mem::swap(inputs, outputs);
        i += 1;
    }
    inputs.move_to(out)?;
    Ok(ending)
}

// The step at place i takes all of `inputs`, which stand so: it puts what it gives in `outputs`, and the answer is how it stands.
fn run_at(
    alloc: Global,
    steps: &mut Vec<LineStep>,
    i: usize,
    inputs: &mut Batch,
    ending: StateEnd,
    outputs: &mut Batch,
) -> Result<StateEnd, NoMemory>
    requires within { i < length steps.old.items }
    requires empty { outputs.old ≡ [] }
    ensures runs { IfOk result (λ e. RanAt steps.old.items i inputs.old (end_of ending) steps.new.items outputs.new (end_of e)) }
    ensures none { OnOk result (inputs.new ≡ []) }
{
    let last = steps[i].run(alloc, inputs, ending, outputs)?;
    Ok(last)
}
