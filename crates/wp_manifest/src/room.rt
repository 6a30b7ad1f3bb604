//! The memory that an install takes, before all places are known.

ghost use Rattle.std.specs.Prelude.{◌≡◌, ◌≤◌, length, Some};
ghost use Rattle.wp_manifest.specs.Edit.{Edit};
ghost use Rattle.wp_manifest.specs.Room.{with_newest_at};

use crate::edit::Edit;
use std::marker::Model;
use wp_gatelog::Frame;

/// Where the bytes of an edit of the second form have the log's place, and where the place of its newest table.
const LOG_PLACE: usize = 16;

const NEWEST_PLACE: usize = 32;

/// An edit of the second form, with all the memory that its install takes. Clauses see the edit. Until it is installed the log's
/// place and that of the newest table may become others.
#[derive(Drop)]
pub struct EditRoom {
    pub(crate) frame: Frame,
    pub(crate) edit: Edit,
}

impl Model for EditRoom {
    ghost use Rattle.wp_manifest.specs.Edit.{Edit};
    ghost use Rattle.wp_manifest.specs.Room.{IsRoom};

    ghost Value = { Edit };

    ghost view = { λ r. r.edit };

    ghost invariant = { λ r. IsRoom r.frame r.edit };
}

impl EditRoom {
    /// The log begins at this place of its device.
    pub fn set_log_place(&mut self, place: u64)
        ensures { self.new ≡ record self.old { place = Some place } }
    {
        self.frame.put_u64(LOG_PLACE, place);
        self.edit.place = Some(place);
    }

    /// The newest table is at this place of the tables' device.
    pub fn set_newest_place(&mut self, place: u64)
        requires { 1 ≤ length self.old.tables }
        ensures { self.new ≡ with_newest_at place self.old }
    {
        self.frame.put_u64(NEWEST_PLACE, place);
        self.edit.tables[0].0 = place;
    }
}
