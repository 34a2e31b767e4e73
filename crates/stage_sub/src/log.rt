ghost use Rattle.std.specs.Prelude.{◌≡◌, ◌≢◌, ◌≤◌, ◌<◌, OnOk, OnErr, Option, Some, None, true, false};
ghost use Rattle.std.specs.Option.{option_map};
ghost use Rattle.port_core.specs.Picks.{next_move, behind_next, IsMove};
ghost use Rattle.stage_sub.specs.Moves.{noted};
ghost use Rattle.stage_sub.specs.Logs.{HasRoom, moves_in};
ghost use Rattle.stage_sub.specs.Leds.{left_in, stuck_in, IsNextMove};
ghost use Rattle.stage_sub.specs.Handling.{new_log};

use elem_core::why::NoMemory;
use port_core::pick_log::{Next, PickLog};
use std::alloc::Global;
use stream_model::kind::Joining;

/// The log of a new stage: a merge of substreams has one. It takes no memory.
pub fn log_of(alloc: Global, joining: Joining) -> Option<PickLog>
    ensures moves { moves_in result ≡ new_log joining }
    ensures left { left_in result ≡ None }
    ensures stuck { stuck_in result ≡ false }
{
    match joining {
        Joining::Merge => Some(PickLog::new(alloc)),
        Joining::Concat => None,
    }
}

// Choice: docs/DECISIONS.md#moves-in-a-log
/// Makes room for a move, where there is a log. On a refusal the log is as before.
pub fn make_room(log: &mut Option<PickLog>) -> Result<(), NoMemory>
    ensures moves { moves_in log.new ≡ moves_in log.old }
    ensures left { left_in log.new ≡ left_in log.old }
    ensures stuck { stuck_in log.new ≡ stuck_in log.old }
    ensures room { OnOk result (HasRoom log.new) }
{
    match log {
        Some(log) => log.reserve(),
        None => Ok(()),
    }
}

/// Notes a move, for which room was made, where there is a log and an output was given. It takes no memory.
#[tactic(auto, using(crate::proofs::Following::free_may, crate::proofs::Following::free_behind))]
pub fn note(log: &mut Option<PickLog>, gave: Option<u32>)
    requires room { HasRoom log.old }
    requires free { left_in log.old ≡ None }
    ensures moves { moves_in log.new ≡ noted (moves_in log.old) gave }
    ensures left { left_in log.new ≡ None }
    ensures stuck { stuck_in log.new ≡ stuck_in log.old }
{
    if let Some(log) = log {
        if let Some(port) = gave {
            log.note(port);
        }
    }
}

/// Notes the next of the moves that are followed. It takes no memory.
#[tactic(auto, using(crate::proofs::Following::next_may, crate::proofs::Following::next_led))]
pub fn note_next(log: &mut Option<PickLog>, port: u32)
    requires { IsNextMove port (left_in log.old) }
    ensures moves { moves_in log.new ≡ noted (moves_in log.old) (Some port) }
    ensures left { left_in log.new ≡ behind_next (left_in log.old) }
    ensures stuck { stuck_in log.new ≡ stuck_in log.old }
{
    match log {
        Some(log) => log.note(port),
        None => unreachable!(),
    }
}

/// What the next move is to be. It takes no memory.
pub fn next(log: &Option<PickLog>) -> Next
    ensures { result ≡ next_move (left_in log.now) }
{
    match log {
        Some(log) => log.next(),
        None => Next::Free,
    }
}

/// Whether moves are followed.
#[tactic(auto, using(crate::proofs::Following::free_left, crate::proofs::Following::led_next))]
pub fn follows(log: &Option<PickLog>) -> bool
    ensures yes { result ≡ true → left_in log.now ≢ None }
    ensures no { result ≡ false → left_in log.now ≡ None }
{
    !matches!(next(log), Next::Free)
}

/// Whether the next move was found to be one that cannot be made.
pub fn is_stuck(log: &Option<PickLog>) -> bool
    ensures { result ≡ stuck_in log.now }
{
    match log {
        Some(log) => log.is_stuck(),
        None => false,
    }
}

/// Marks that the next move cannot be made. It takes no memory.
pub fn misfit(log: &mut Option<PickLog>)
    requires { IsMove (next_move (left_in log.old)) }
    ensures moves { moves_in log.new ≡ moves_in log.old }
    ensures left { left_in log.new ≡ left_in log.old }
    ensures stuck { stuck_in log.new ≡ true }
{
    match log {
        Some(log) => log.misfit(),
        None => unreachable!(),
    }
}
