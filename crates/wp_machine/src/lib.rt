//! The core machine as code: worlds and steps as values, and what a step makes of a world.
//!
//! A `World` shows the machine's own world, and so do its parts. `apply` makes one step of one actor: of a step that may be
//! made, the new world is what the machine's step makes of the old one, a sound world stays sound, and a reached one stays
//! reached. What the world has already is named in a step by a number, a name or a place alone. While an actor makes its
//! step it is apart from the world: first the step is marked, which may end what it noted, then the step changes the world and
//! the actor, and then it is put back.
//!
//! A step that makes or joins an actor changes two places, and ends no notes: a joined actor is taken out of the world first.
//! `World::opened` is an opening on any legal history that ends in no undo, with all its versions in memory; its undecided
//! prepares are delayed, their names had by nobody and their keys held.
//!
//! Sets and maps are lists whose newest item comes first. What no step reads is there for clauses alone, has no bytes and takes no
//! memory (`Snapshot`): a state as its holder left it, what an actor did or found, the history that the world was opened on.
//!
//! Whether a step may be made is tested by `wp_machine_permits`.
#![tactic(auto)]

mod access;
mod actor;
mod applied;
mod cache;
mod content;
mod copies;
mod due;
mod effects;
mod left;
mod lists;
mod locks;
mod marks;
mod pairs;
mod prepared;
mod snapshots;
mod step;
mod store;
mod turn;
mod versions;
mod views;
mod world;
mod writes;

pub use actor::{Actor, Participant, Registration, Transaction};
pub use applied::{actor_at, apply};
pub use cache::Cache;
pub use content::Content;
pub use copies::copy_versions;
pub use locks::LockState;
pub use marks::Mark;
pub use prepared::PreparedSets;
pub use snapshots::{LiveSnapshot, Snapshots};
pub use step::{
    ActorsStep, Kind, LocksStep, OwnStep, PreparedStep, ReaderStep, SnapshotsStep, Step, StoreStep,
    TablesStep, TurnStep, WordStep, WriteStep,
};
pub use store::{Installed, InstalledEdit, StoreState};
pub use turn::Holders;
pub use versions::versions_of_next;
pub use views::{Account, Event, Fact, Found, Noted};
pub use world::World;
pub use wp_core::Turn;
pub use writes::{WriteState, entry_at};
