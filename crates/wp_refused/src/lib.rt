//! Why a store is not opened: the first fault of its devices, in the order of an opening, and that there is one way to open them.
//!
//! A fault of the bytes is named by what is wrong and where. Each error of the log, the manifest and the tables means one for the
//! opening. The same bytes are never damaged where they open; they open to one history and one edit, and they have one first fault.
#![tactic(auto)]

mod bad;
mod error;
mod laws;
mod reason;

pub use bad::Bad;
pub use error::{OpenError, OpenRefused};
pub use laws::{a_store_is_opened_in_one_way, opened_parts_open_again};
pub use reason::{log_reason, manifest_reason, table_reason};
