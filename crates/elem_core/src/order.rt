// Elements as keys: they are equal where they compare equal.
ghost use Rattle.std.specs.Prelude.{refl};
ghost use Rattle.std.specs.Cmp.{eq_by_cmp_equiv, partial_equiv_from_equiv, partial_order_from_total};
ghost use Rattle.std.specs.Ordering.{eq_by_cmp, as_partial_cmp};
ghost use Rattle.elem_core.specs.Order.{tree_cmp};
ghost use Rattle.elem_core.specs.OrderLaws.{trees_total};

use crate::elem::Elem;
use std::cmp::Ordering;

impl PartialEq for Elem {
    ghost eq = { eq_by_cmp tree_cmp };

    ghost laws = { partial_equiv_from_equiv (eq_by_cmp_equiv trees_total) };

    fn eq(&self, other: &Elem) -> bool {
        self.compare(other) == Ordering::Equal
    }
}

impl Eq for Elem {
    ghost laws = { eq_by_cmp_equiv trees_total };
}

impl PartialOrd for Elem {
    ghost partial_cmp = { as_partial_cmp tree_cmp };

    ghost laws = { partial_order_from_total trees_total };

    fn partial_cmp(&self, other: &Elem) -> Option<Ordering> {
        Some(self.compare(other))
    }
}

impl Ord for Elem {
    ghost cmp = { tree_cmp };

    ghost total = { trees_total };

    ghost matches_partial_cmp = { λ x y. refl };

    ghost matches_eq = { λ x y. refl };

    fn cmp(&self, other: &Elem) -> Ordering {
        self.compare(other)
    }
}
