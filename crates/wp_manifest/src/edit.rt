ghost use Rattle.std.specs.Prelude.{◌≡◌};
ghost use Rattle.wp_manifest.specs.Edit.{no_edit};

use std::alloc::Global;
use std::marker::Model;
use wp_model::Seq;

/// The count in the first form by which an edit of the second is known: with nothing flushed there is no table.
pub(crate) const MARK: u32 = u32::MAX;

/// What the tables of a store are. Clauses see the number and the list of tables.
#[derive(Drop)]
pub struct Edit {
    /// The versions of all entries up to this number are in the tables, as far as they are needed; 0 where none is.
    pub flushed: Seq,
    /// Where on its device the log begins. An edit of the first form does not say it, and means the device's beginning.
    pub place: Option<u64>,
    /// Of each table its place on the tables' device and its length, in bytes, the newest first.
    pub tables: Vec<(u64, u64)>,
}

impl Model for Edit {
    ghost use Rattle.wp_manifest.specs.Edit.{Edit};

    ghost Value = { Edit };

    ghost view = { λ e. record { flushed = e.flushed; place = e.place; tables = e.tables.items } };
}

impl Edit {
    /// Nothing is flushed, and there is no table.
    pub fn none(alloc: Global) -> Edit
        ensures { result ≡ no_edit }
    {
        Edit {
            flushed: 0,
            place: None,
            tables: Vec::new(alloc),
        }
    }
}
