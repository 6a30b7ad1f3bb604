//! What lies in a slot.
ghost use Rattle.std.specs.Prelude.{List, Option};
ghost use Rattle.wp_core.specs.States.{Content};

/// A value behind a turn, or one that stands in its slot while it is out.
pub trait HoldsPart {
    /// The state that it is; none where it only stands in for one.
    ghost content: { Self → Option Content };

    /// What its devices tell, while its turn is free. The list has the values behind the turns as the table was made.
    ghost tells: { List Self → Self → Type 0 };
}

/// The values behind the turns of a table that was closed.
#[derive(Drop)]
pub struct Parts<S> {
    pub write: S,
    pub prepared: S,
    pub snapshots: S,
    pub store: S,
    pub locks: S,
    pub tables: S,
}
