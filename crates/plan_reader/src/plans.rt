// The moves of all stages that choose.
ghost use Rattle.std.specs.Prelude.{◌≡◌, ◌+◌, ◌<◌, ◌≤◌, ◌++◌, [], ℕ, List, length, take, map, IfOk, IfSome, IfNone, Err, true};
ghost use Rattle.plan_reader.specs.Text.{pick_line, AllSmall, IsRest};
ghost use Rattle.plan_reader.specs.Plans.{shows_no_other, shown_before, order_fits, fits_shape, LineOf, SaysPlans, IsFault};
ghost use Rattle.stream_model.specs.Picks.{all_below};

use crate::moves::{LineEnd, read_moves};
use elem_core::line::Line;
use std::alloc::Global;

/// Which moves a stage may make.
#[derive(Drop)]
pub enum Shape {
    /// Each is below this number: the inputs of a merge, the outputs of a balance, and 2 of a buffer.
    Below(u32),
    /// Any: the substreams of a stage.
    Any,
    /// At most one: a recover.
    AtMostOne,
    /// None, or an order, 1 or 2, and a count: a valve of that switch.
    OrderOf(Line),
}

/// A stage that chooses.
#[derive(Drop)]
pub struct Chooser {
    pub name: Line,
    pub shape: Shape,
}

/// Why there are no moves.
#[derive(Debug, Drop, Clone, Copy, PartialEq, Eq)]
pub enum PlanEnd {
    /// The first line at fault, by its number from 1.
    Fault(u32),
    NoMemory,
}

/// What stands behind this head, where it stands first.
fn behind<'a>(text: &'a [u8], head: &[u8]) -> Option<&'a [u8]>
    ensures some { IfSome result (λ r. text.now ≡ head.now ++ r.now) }
    ensures none { IfNone result ((r : List ℕ) → text.now ≡ head.now ++ r → ⊥) }
{
    if text.len() >= head.len() && &text[..head.len()] == head {
        Some(&text[head.len()..])
    } else {
        None
    }
}

/// Whether each move is below that number.
fn are_below(most: u32, moves: &[u32]) -> bool
    ensures { result ≡ all_below most moves.now }
{
    moves.iter().all(|m| *m < most)
}

/// Whether a stage with these moves shows no other order of that switch.
fn shows_no_other(switch: &Line, order: u32, shape: &Shape, moves: &[u32]) -> bool
    ensures { result ≡ shows_no_other switch.now order shape.now moves.now }
{
    match shape {
        Shape::OrderOf(other) if moves.len() == 2 => {
            !(other.bytes() == switch.bytes()) || moves[0] == order
        }
        _ => true,
    }
}

/// Whether none of those before shows another order of that switch.
fn shown_before(switch: &Line, order: u32, choosers: &[Chooser], plans: &[Vec<u32>]) -> bool
    ensures { result ≡ shown_before switch.now order choosers.now (map (λ p. p.items) plans.now) }
{
    for i in 0..choosers.len().min(plans.len()) {
        if !shows_no_other(switch, order, &choosers[i].shape, &plans[i]) {
            return false;
        }
    }
    true
}

/// Whether these are an order and a count that fit a valve of that switch, behind those.
fn order_fits(switch: &Line, choosers: &[Chooser], plans: &[Vec<u32>], moves: &[u32]) -> bool
    ensures { result ≡ order_fits switch.now choosers.now (map (λ p. p.items) plans.now) moves.now }
{
    if moves.is_empty() {
        return true;
    }
    if moves.len() != 2 {
        return false;
    }
    let order = moves[0];
    (order == 1 || order == 2) && shown_before(switch, order, choosers, plans)
}

/// Whether the moves are of this shape, behind those.
fn fits_shape(shape: &Shape, choosers: &[Chooser], plans: &[Vec<u32>], moves: &[u32]) -> bool
    ensures { result ≡ fits_shape shape.now choosers.now (map (λ p. p.items) plans.now) moves.now }
{
    match shape {
        Shape::Below(most) => are_below(*most, moves),
        Shape::Any => true,
        Shape::AtMostOne => moves.len() <= 1,
        Shape::OrderOf(switch) => order_fits(switch, choosers, plans, moves),
    }
}

/// The line of a stage, behind those of the stages before it: its moves, and what stands behind it.
fn read_line<'a>(
    alloc: Global,
    text: &'a [u8],
    chooser: &Chooser,
    before: &[Chooser],
    plans: &[Vec<u32>],
) -> Result<(Vec<u32>, &'a [u8]), LineEnd>
    ensures ok { IfOk result (λ r. LineOf chooser.now before.now (map (λ p. p.items) plans.now) text.now r.0.items r.1.now) }
    ensures bad { result ≡ Err LineEnd.Bad → (ms rest : List ℕ) → LineOf chooser.now before.now (map (λ p. p.items) plans.now) text.now ms rest → ⊥ }
{
    let Some(named) = behind(text, b"pick ") else {
        return Err(LineEnd::Bad);
    };
    let Some(moved) = behind(named, chooser.name.bytes()) else {
        return Err(LineEnd::Bad);
    };
    let (moves, rest) = match read_moves(alloc, moved) {
        Ok(line) => line,
        Err(end) => return Err(end),
    };
    if fits_shape(&chooser.shape, before, plans, &moves) {
        Ok((moves, rest))
    } else {
        Err(LineEnd::Bad)
    }
}

/// The moves that the text of a trace says for these stages, in their order; or the number of the first line at fault, which is the one
/// behind the last where a line is missing.
pub fn read_plans(
    alloc: Global,
    text: &[u8],
    choosers: &[Chooser],
) -> Result<Vec<Vec<u32>>, PlanEnd>
    requires { length choosers.now ≤ 1024 }
    ensures ok { IfOk result (λ plans. SaysPlans choosers.now text.now (map (λ p. p.items) plans.items)) }
    ensures fault { (line : ℕ) → result ≡ Err (PlanEnd.Fault line) → IsFault choosers.now text.now line }
{
    let mut plans = Vec::new(alloc);
    let mut rest = text;
    for i in 0..choosers.len() {
        match read_line(alloc, rest, &choosers[i], &choosers[..i], &plans) {
            Ok((moves, behind)) => {
                if plans.push(moves).is_err() {
                    return Err(PlanEnd::NoMemory);
                }
                rest = behind;
            }
            Err(LineEnd::Bad) => return Err(PlanEnd::Fault(i as u32 + 1)),
            Err(LineEnd::NoMemory) => return Err(PlanEnd::NoMemory),
        }
    }
    if rest.is_empty() {
        Ok(plans)
    } else {
        Err(PlanEnd::Fault(choosers.len() as u32 + 1))
    }
}
