ghost use Rattle.std.specs.Prelude.{◌≡◌, List, IfOk, IfSome, OnErr};
ghost use Rattle.wp_model.specs.declared.row.Row.{Row};
ghost use Rattle.wp_model.specs.Rows.{GivesFirst, Pair};

use std::alloc::AllocError;
use wp_model::Row;

/// Rows at one number, given one by one.
pub trait Rows {
    /// The keys that are left, each with its value.
    ghost left: { Self → List Pair };

    /// What a row is that is given: its number is known only as it comes.
    ghost gives: { Self → Row → Type 0 };

    /// What may have become of it since.
    ghost later: { Self → Self → Type 0 };

    /// The first of the rows that are left, or none where none is left. A refused call may be repeated. It may wait for
    /// others, and then returns where they let it.
    fn next(&mut self) -> Result<Option<Row>, AllocError>
        ensures row { IfOk result (GivesFirst (left self.old) (left self.new)) }
        ensures given { IfOk result (λ found. IfSome found (gives self.old)) }
        ensures still { (row : Row) → gives self.new row → gives self.old row }
        ensures later { later self.old self.new }
        ensures err { OnErr result (left self.new ≡ left self.old) };

    ghost itself: { (rows : Self) → later rows rows };

    ghost again: { (one two three : Self) → later one two → later two three → later one three };
}
