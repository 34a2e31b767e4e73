// Laws of the boundary stages: each function has no body, and its contract is the law.
ghost use Rattle.std.specs.Prelude.{◌≡◌, ℕ, List, [], ◌∷◌, ◌++◌};
ghost use Rattle.elem_core.specs.Tree.{Tree};
ghost use Rattle.elem_core.specs.declared.item.Item.{Item};
ghost use Rattle.elem_core.specs.declared.why.Cause.{Cause};
ghost use Rattle.port_core.specs.declared.act.Act.TheVariants.{Pull, Push, Complete, FailOut, Cancel};
ghost use Rattle.port_core.specs.declared.view.InView.TheVariants.{Idle};
ghost use Rattle.port_core.specs.declared.view.OutView.TheVariants.{Available};
ghost use Rattle.port_core.specs.View.{View, in_at, out_at, IsInOpen, IsOutOpen};
ghost use Rattle.nodes.specs.OnePort.{MayDo};
ghost use Rattle.nodes.specs.Entering.{Entering, EnteringPortState, EnteringLaw};
ghost use Rattle.nodes.specs.Leaving.{Leaving, LeavingPortState, LeavingLaw};

/// Between two calls the stage where a lane comes in may push an element where its output is asked, and complete or fail it
/// where it is open: its port state and its law hold then.
pub fn an_entering_stage_may_act()
    ensures push { (first now : Entering) (v : View) (took gave : List (List Item)) → EnteringPortState now v → EnteringLaw first now v took gave
        → (j : ℕ) (t : Tree) → out_at v j ≡ Available → MayDo EnteringPortState EnteringLaw now first v took gave (Push j t) }
    ensures complete { (first now : Entering) (v : View) (took gave : List (List Item)) → EnteringPortState now v → EnteringLaw first now v took gave → (j : ℕ)
        → IsOutOpen (out_at v j) → MayDo EnteringPortState EnteringLaw now first v took gave (Complete j) }
    ensures fail { (first now : Entering) (v : View) (took gave : List (List Item)) → EnteringPortState now v → EnteringLaw first now v took gave
        → (j : ℕ) (c : Cause) → IsOutOpen (out_at v j) → MayDo EnteringPortState EnteringLaw now first v took gave (FailOut j c) }
{}

/// Between two calls the stage where a lane goes out may ask its input where that is idle and nothing waits, and cancel it
/// where it is open: its port state and its law hold then.
pub fn a_leaving_stage_may_act()
    ensures pull { (first now : Leaving) (v : View) (took gave : List (List Item)) → LeavingPortState now v → LeavingLaw first now v took gave → (i : ℕ)
        → now.waits ≡ [] → in_at v i ≡ Idle → MayDo LeavingPortState LeavingLaw now first v took gave (Pull i) }
    ensures cancel { (first now : Leaving) (v : View) (took gave : List (List Item)) → LeavingPortState now v → LeavingLaw first now v took gave → (i : ℕ)
        → IsInOpen (in_at v i) → MayDo LeavingPortState LeavingLaw now first v took gave (Cancel i) }
{}

/// At every moment what came to the stage where a lane goes out is what was handed out or dropped, and then what waits: so each
/// element and the end leave once, in order.
pub fn what_came_left_or_waits()
    ensures { (first now : Leaving) (v : View) (took gave : List (List Item)) → LeavingLaw first now v took gave → took ≡ (now.gone ++ now.waits) ∷ [] }
{}
