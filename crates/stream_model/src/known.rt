// All that a blueprint has to know of what a caller hands in.
ghost use Rattle.std.specs.Prelude.{◌≡◌, map};
ghost use Rattle.stream_model.specs.Known.{head_shape};

use crate::head::{CustomHead, PlugHead};
use std::marker::Model;

/// The heads of the plugs and of the custom stages that a caller hands in, each in its order.
#[derive(Drop)]
pub struct Heads<'a> {
    plugs: &'a [PlugHead],
    customs: &'a [CustomHead],
}

impl<'a> Model for Heads<'a> {
    ghost use Rattle.std.specs.Coded.{codes};
    ghost use Rattle.std.specs.Prelude.{map};
    ghost use Rattle.elem_core.specs.Sort.{sort_coded};
    ghost use Rattle.elem_core.specs.contracts.elem_type.ElemType as elem_type;
    ghost use Rattle.stream_model.specs.Known.{HeadLists, head_shape};

    ghost Value = { HeadLists };

    ghost coded = { Prim.hlevel (codes, sort_coded, elem_type.the_row.coded) };

    ghost view = { λ h. record { plugs = h.plugs.now; customs = map head_shape h.customs.now } };
}

impl<'a> Heads<'a> {
    /// These heads.
    pub fn of(plugs: &'a [PlugHead], customs: &'a [CustomHead]) -> Heads<'a>
        ensures { result ≡ record { plugs = plugs.now; customs = map head_shape customs.now } }
    {
        Heads { plugs, customs }
    }

    /// Those of the plugs.
    pub fn plugs(&self) -> &'a [PlugHead]
        ensures { result.now ≡ self.now.plugs }
    {
        self.plugs
    }

    /// Those of the custom stages.
    pub fn customs(&self) -> &'a [CustomHead]
        ensures { map head_shape result.now ≡ self.now.customs }
    {
        self.customs
    }
}
