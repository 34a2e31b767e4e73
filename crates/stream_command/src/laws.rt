// A law of the plugs that the program ships: a function without a body, whose contract is the law.
ghost use Rattle.plug_logic.specs.Shipped.{shipped_book};
ghost use Rattle.stream_model.specs.Heads.{shipped_guests};
ghost use Rattle.run_blueprint.specs.Plugs.{KeepsPlugTypes};

/// Each plug of the program gives elements of its output type, where it takes elements of its input type. So in a run with
/// these plugs each wire carries only elements of its type.
#[tactic(auto, using(crate::proofs::Types::types_kept))]
pub fn shipped_plugs_keep_their_types()
    ensures { KeepsPlugTypes shipped_guests shipped_book }
{}
