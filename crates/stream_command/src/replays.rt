// The moves that the stages of a blueprint follow, by the file of moves.
ghost use Rattle.std.specs.Prelude.{◌≡◌, ◌<◌, ◌≤◌, IfOk, List, ℕ, length, map, true, false, Some};
ghost use Rattle.std.specs.Option.{option_copied};
ghost use Rattle.stream_io.specs.Counts.{GrewAtMost};
ghost use Rattle.materializer.specs.Choosers.{moves_of, PlansFit};
ghost use Rattle.stream_command.specs.Outcome.{plan_limit};
ghost use Rattle.stream_command.specs.Replays.{SaysOf, ReadsMoves, ReadsPlans};

use elem_core::line::Line;
use elem_core::why::NoMemory;
use materializer::choosers::{choosers_of, no_plans, plans_by_node};
use plan_reader::plans::{PlanEnd, read_plans};
use std::alloc::Global;
use stream_io::outside::Folder;
use stream_io::text::{ReadEnd, read_up_to};
use stream_model::blueprint::Node;

/// At most so many bytes of a file of moves are read: one more than it may have.
pub const PLAN_LIMIT: usize = 67_108_865;

/// Why there are no moves to follow.
#[derive(Drop, Clone, Copy)]
pub enum PlansEnd {
    /// The file is not there, or its opening was refused.
    Missing,
    /// A read of it failed.
    ReadFault,
    /// The line with this number is at fault, or 0: the file is too long.
    BadTrace(u32),
    NoMemory,
}

/// A text has more bytes than a file of moves may have.
fn is_too_long(text: &[u8]) -> bool
    ensures long { result ≡ true → plan_limit ≤ length text.now }
    ensures short { result ≡ false → length text.now < plan_limit }
{
    text.len() >= PLAN_LIMIT
}

/// The moves that the text of a trace says for these nodes, where it is not too long.
fn plans_of_text(
    alloc: Global,
    nodes: &[Node],
    text: &[u8],
) -> Result<Vec<Option<Vec<u32>>>, PlansEnd>
    requires { length nodes.now ≤ 1024 }
    ensures says { SaysOf text.now nodes.now result }
    ensures fit { IfOk result (λ plans. PlansFit (map (λ n. n.kind) nodes.now) (map moves_of plans.items)) }
{
    if is_too_long(text) {
        return Err(PlansEnd::BadTrace(0));
    }
    let Ok(choosers) = choosers_of(alloc, nodes) else {
        return Err(PlansEnd::NoMemory);
    };
    match read_plans(alloc, text, &choosers) {
        Ok(plans) => match plans_by_node(alloc, nodes, plans) {
            Ok(by_node) => Ok(by_node),
            Err(_) => Err(PlansEnd::NoMemory),
        },
        Err(PlanEnd::Fault(line)) => Err(PlansEnd::BadTrace(line)),
        Err(PlanEnd::NoMemory) => Err(PlansEnd::NoMemory),
    }
}

/// The moves that each of these nodes follows, as the file of that name says them. The file is read whole, and its text is let go.
fn plans_in_file<F: Folder>(
    alloc: Global,
    folder: &mut F,
    nodes: &[Node],
    name: &Line,
) -> Result<Vec<Option<Vec<u32>>>, PlansEnd>
    requires { length nodes.now ≤ 1024 }
    ensures reads { ReadsMoves (F.state folder.old) (F.state folder.new) name.now nodes.now result }
    ensures fit { IfOk result (λ plans. PlansFit (map (λ n. n.kind) nodes.now) (map moves_of plans.items)) }
    ensures most { GrewAtMost ((F.state folder.old).read name.now) plan_limit ((F.state folder.new).read name.now) }
    ensures handles { F.handles folder.new ≡ F.handles folder.old }
{
    match read_up_to(alloc, folder, name, PLAN_LIMIT) {
        Ok(text) => plans_of_text(alloc, nodes, &text),
        Err(ReadEnd::Missing) => Err(PlansEnd::Missing),
        Err(ReadEnd::Fault) => Err(PlansEnd::ReadFault),
        Err(ReadEnd::NoMemory) => Err(PlansEnd::NoMemory),
    }
}

/// The same, where a file of moves is named; else none follows any.
pub fn plans_of_file<F: Folder>(
    alloc: Global,
    folder: &mut F,
    nodes: &[Node],
    replay: Option<&Line>,
) -> Result<Vec<Option<Vec<u32>>>, PlansEnd>
    requires few { length nodes.now ≤ 1024 }
    ensures reads { ReadsPlans (F.state folder.old) (F.state folder.new) (option_copied replay.entry) nodes.now result }
    ensures fit { IfOk result (λ plans. PlansFit (map (λ n. n.kind) nodes.now) (map moves_of plans.items)) }
    ensures most { (t : List ℕ) → option_copied replay.entry ≡ Some t → GrewAtMost ((F.state folder.old).read t) plan_limit ((F.state folder.new).read t) }
    ensures handles { F.handles folder.new ≡ F.handles folder.old }
{
    match replay {
        Some(name) => plans_in_file(alloc, folder, nodes, name),
        None => match no_plans(alloc, nodes.len()) {
            Ok(by_node) => Ok(by_node),
            Err(_) => Err(PlansEnd::NoMemory),
        },
    }
}
