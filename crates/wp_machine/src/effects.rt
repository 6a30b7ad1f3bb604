//! What each step makes of a world and of the actor that makes it.
mod locks;
mod own;
mod prepared;
mod reader;
mod snapshots;
mod store;
mod tables;
mod turn;
mod word;
mod write;

pub(crate) use locks::locks;
pub(crate) use own::own;
pub(crate) use prepared::prepared;
pub(crate) use reader::reader;
pub(crate) use snapshots::snapshots;
pub(crate) use store::store;
pub(crate) use tables::tables;
pub(crate) use turn::turn;
pub(crate) use word::word;
pub(crate) use write::write;
