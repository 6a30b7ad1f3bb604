/// What a new table takes the place of.
#[derive(Clone, Copy)]
pub enum Gone {
    /// The frozen parts that were written to it. All tables stay.
    Frozen,
    /// All tables, which were merged to it.
    Tables,
}
