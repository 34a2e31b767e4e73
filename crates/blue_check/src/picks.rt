// Which blueprints make moves that a run has to record.
ghost use Rattle.std.specs.Prelude.{◌≡◌};
ghost use Rattle.blue_names.specs.Picks.{may_drop, is_merged, picks, needs_picks};

use stream_model::blueprint::Node;
use stream_model::kind::{Joining, Kind, Policy};

/// Whether a full buffer does not hold its input back.
fn may_drop(policy: Policy) -> bool
    ensures { result ≡ may_drop policy }
{
    match policy {
        Policy::Backpressure => false,
        _ => true,
    }
}

/// Whether the outputs of substreams come together as they are.
fn is_merged(joining: Joining) -> bool
    ensures { result ≡ is_merged joining }
{
    match joining {
        Joining::Merge => true,
        Joining::Concat => false,
    }
}

/// Whether the moves of a kind depend on what comes first.
pub fn picks(kind: &Kind) -> bool
    ensures { result ≡ picks kind.now }
{
    match kind {
        Kind::Merge(_) | Kind::MergeHub(_, _) | Kind::Balance(_) | Kind::Valve(_) => true,
        Kind::RecoverNum(_) | Kind::RecoverText(_) => true,
        Kind::GroupBy(_, _, _) => true,
        Kind::Buffer(_, policy) => may_drop(*policy),
        Kind::SplitWhen(_, _, joining) => is_merged(*joining),
        Kind::SplitAfter(_, _, joining) => is_merged(*joining),
        _ => false,
    }
}

/// Whether those of some node do.
pub fn needs_picks(nodes: &[Node]) -> bool
    ensures { result ≡ needs_picks nodes.now }
{
    for node in nodes {
        if picks(&node.kind) {
            return true;
        }
    }
    false
}
