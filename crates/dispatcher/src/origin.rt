// What a place stays, whatever its turns do.
ghost use Rattle.std.specs.Prelude.{ℕ};
ghost use Rattle.std.specs.Borrow.{ftrue};
ghost use Rattle.atomic_table.specs.Seated.{TableId, table_id_coded};

use std::marker::Model;
use std::snapshot::Snapshot;

// Choice: docs/DECISIONS.md#origin-is-ghost
/// The body as it was handed in, and the budget of its seat. No value of it is made.
pub struct PlaceOrigin<B> {
    /// The body as it was handed in.
    pub start: Snapshot<B>,
    /// The budget.
    pub ghost table: { TableId } by { table_id_coded },
    /// The units of the budget.
    pub ghost limit: { ℕ },
}

impl<B> Model for PlaceOrigin<B> {
    ghost also_owns = { λ _. ftrue };
}
