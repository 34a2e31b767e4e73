// The switch that a node names.
ghost use Rattle.std.specs.Prelude.{◌≡◌};
ghost use Rattle.std.specs.Option.{option_map};
ghost use Rattle.materializer.specs.Board.{switch_of};

use elem_core::line::Line;
use stream_model::kind::Kind;

/// The switch that a valve or a trip names; no other kind names one.
pub fn switch_of(kind: &Kind) -> Option<&Line>
    ensures { option_map (λ l. l.now) result ≡ switch_of kind.now }
{
    match kind {
        Kind::Valve(name) | Kind::TripShutdown(name, _) | Kind::TripAbort(name, _) => Some(name),
        _ => None,
    }
}
