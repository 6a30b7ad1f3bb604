//! What steps need that looks at whole states: at each live snapshot, at each key and number of a history and of its versions.
//!
//! Each fact that an actor may note has a test of its own. Yes is answered only where the need is met. The searches are plain and
//! slow; they are for trying the machine out.

mod clearing;
mod decided;
mod edits;
mod finding;
mod listed;
mod live;
mod moves;
mod note;
mod order;
mod pending;
mod read;
mod stored;
mod transactions;
mod unchanged;
mod versions;
mod waiting;

pub(crate) use clearing::{cached, is_apart, is_in_old_commits, pair_at};
pub(crate) use decided::decision_in;
pub(crate) use edits::{has_last_tables, is_next_segment};
pub(crate) use finding::may_find;
pub(crate) use moves::{may_halt, may_install, may_move_versions, may_renew, may_replace_versions};
pub(crate) use note::{is_undelayed, may_note};
pub(crate) use pending::has_versions_of;
pub(crate) use read::history_of;
pub(crate) use transactions::{has_direct, has_locked, is_held_for};
pub(crate) use versions::none_at;
