ghost use Rattle.std.specs.Prelude.{◌≡◌, [], true, IfOk};
ghost use Rattle.plug_logic.specs.Gives.{listed};
ghost use Rattle.step_work.specs.Tasks.{ReactedBy};
ghost use Rattle.stage_linear.specs.Plugs.{Is, plug_work, StaysOn, WorkEndsAs};

use elem_core::elem::Elem;
use elem_core::elems::Elems;
use elem_core::line::Line;
use elem_core::trace::Trace;
use elem_core::why::{NoMemory, Why};
use plug_logic::book::PlugBook;
use plug_logic::logic::{Logic, Verdict};
use std::alloc::{AllocError, Global};
use std::marker::{Model, PhantomData};
use step_work::task::{LinearEnd, LinearReaction};

// Choice: docs/DECISIONS.md#book-is-an-invariant
/// A plug in a stage. While it may be called, its logic gives what the book lists of its name, behind what it took.
#[derive(Drop)]
pub struct PlugTask<L: Logic, B: PlugBook> {
    name: Line,
    logic: L,
    running: bool,
    taken: Trace<Elem>,
    of: PhantomData<B>,
}

// Choice: docs/DECISIONS.md#taken-is-ghost
impl<L: Logic, B: PlugBook> Model for PlugTask<L, B> {
    ghost use Rattle.std.specs.Coded.{codes};
    ghost use Rattle.elem_core.specs.TreeCode.{tree_coded};
    ghost use Rattle.stage_linear.specs.Plugs.{PlugState, FollowsBook};

    ghost Value = { PlugState };

    ghost coded = { Prim.hlevel (codes, tree_coded) };

    ghost view = { λ p. record { name = p.name; taken = p.taken.items; running = p.running } };

    ghost invariant = { λ p. FollowsBook B.lists p.name p.taken.items p.running (L.gives p.logic) };
}

impl<L: Logic, B: PlugBook> PlugTask<L, B> {
    /// The plug of this name, which took nothing yet.
    pub fn of(name: Line, logic: L) -> PlugTask<L, B>
        requires { Is (L.gives logic) [] (listed B.lists name) }
        ensures { result ≡ record { name = name; taken = []; running = true } }
    {
        PlugTask {
            name,
            logic,
            running: true,
            taken: Trace::empty(),
            of: PhantomData,
        }
    }

    // Choice: docs/DECISIONS.md#plugs-fill-one-list
    /// One more element. Its outputs are put into `out`, which is empty. Behind an answer that does not go on, and behind
    /// `NoMemory`, it is not to be called any more.
    pub fn react(
        &mut self,
        alloc: Global,
        e: Elem,
        mut out: Elems,
    ) -> Result<LinearReaction, NoMemory>
        requires running { self.old.running ≡ true }
        requires empty { out ≡ [] }
        ensures reacts { IfOk result (ReactedBy B.lists (plug_work self.old) e (plug_work self.new)) }
        ensures running { IfOk result (StaysOn self.new.running) }
    {
        self.running = false;
        let taken = self.taken.and(&e);
        match self.logic.on_elem(alloc, e, &mut out) {
            Verdict::Go => {
                self.taken = taken;
                self.running = true;
                Ok(LinearReaction::GivesAll(out))
            }
            Verdict::Finish => Ok(LinearReaction::EndsWithAll(out)),
            Verdict::Fail(n) => Ok(LinearReaction::Fails(Why::Plug(n))),
            Verdict::NoMemory => Err(AllocError),
        }
    }

    /// The end of the input. It is not to be called any more.
    pub fn end(&mut self, alloc: Global) -> Result<LinearEnd, NoMemory>
        requires { self.old.running ≡ true }
        ensures last { IfOk result (WorkEndsAs B.lists (plug_work self.old)) }
        ensures work { plug_work self.new ≡ plug_work self.old }
    {
        let mut out = Elems::new(alloc);
        self.running = false;
        match self.logic.on_end(alloc, &mut out) {
            Verdict::Go | Verdict::Finish => Ok(LinearEnd::Adds(out)),
            Verdict::Fail(n) => Ok(LinearEnd::Refuses(Why::Plug(n))),
            Verdict::NoMemory => Err(AllocError),
        }
    }
}
