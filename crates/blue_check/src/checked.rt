// Blueprints that were checked.
ghost use Rattle.std.specs.Prelude.{◌≡◌, ◌↔◌, true, false, IsTrue};
ghost use Rattle.stream_model.specs.Shape.{IsPolytree};
ghost use Rattle.blue_names.specs.Paths.{HasNoClosedWalk};
ghost use Rattle.blue_names.specs.Picks.{needs_picks};
ghost use Rattle.blue_check.specs.Forest.{wiring};
ghost use Rattle.blue_check.specs.Wires.{blueprint_wires};

use stream_model::blueprint::Blueprint;

// Choice: docs/DECISIONS.md#tests-are-kept
/// A blueprint that can be run: it breaks no rule. No wire of it lies on a closed walk.
#[derive(Drop)]
pub struct Checked {
    blueprint: Blueprint,
    polytree: bool,
    picks: bool,
    ghost none_closed: { HasNoClosedWalk (blueprint_wires blueprint) },
    ghost is_tree: { polytree ≡ true → IsPolytree (wiring (blueprint_wires blueprint)) },
    ghost is_no_tree: { polytree ≡ false → IsPolytree (wiring (blueprint_wires blueprint)) → ⊥ },
    ghost tells_picks: { picks ≡ needs_picks blueprint.nodes.items },
}

impl Checked {
    ghost use Rattle.blue_check.specs.Checked.{checked_blueprint};

    /// The blueprint that was checked.
    pub fn blueprint(&self) -> &Blueprint
        ensures { result.now ≡ checked_blueprint self.now }
    {
        &self.blueprint
    }

    /// The blueprint that was checked, as the caller's own. It takes no memory.
    pub fn into_blueprint(self) -> Blueprint
        ensures { result ≡ checked_blueprint self }
    {
        self.blueprint
    }

    /// Whether no closed walk uses each wire at most once, when directions are ignored. Two wires between the same nodes are such
    /// a walk. It takes no memory.
    pub fn is_polytree(&self) -> bool
        ensures { IsTrue result ↔ IsPolytree (wiring (blueprint_wires (checked_blueprint self.now))) }
    {
        self.polytree
    }

    /// Whether a run makes moves that it has to record: there is a merge, a merge hub, a balance, a buffer that does not hold its
    /// input back, a valve, a recover, or substreams that are merged. It takes no memory.
    pub fn needs_picks(&self) -> bool
        ensures { result ≡ needs_picks (checked_blueprint self.now).nodes.items }
    {
        self.picks
    }

    /// A blueprint of which all this is known.
    pub(crate) fn new(blueprint: Blueprint, polytree: bool, picks: bool) -> Checked
        requires none_closed { HasNoClosedWalk (blueprint_wires blueprint) }
        requires is_tree { polytree ≡ true → IsPolytree (wiring (blueprint_wires blueprint)) }
        requires is_no_tree { polytree ≡ false → IsPolytree (wiring (blueprint_wires blueprint)) → ⊥ }
        requires tells_picks { picks ≡ needs_picks blueprint.nodes.items }
        ensures { checked_blueprint result ≡ blueprint }
    {
        Checked {
            blueprint,
            polytree,
            picks,
        }
    }
}
