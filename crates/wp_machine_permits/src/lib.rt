//! Whether a step of the machine may be made.
//!
//! `permits` is the test that `wp_machine::apply` asks for. Where it says yes, the machine's needs of the step are met in that
//! world. What the needs say of all live snapshots, of all prepared numbers or of all changes of an entry is searched for in
//! the lists that the world has; what they say of the history is asked of a `History` made of its entries.
//!
//! What a note, a holder that was found, the versions of a flush or a compaction, and an edit need is tested in `needs`. That a no
//! is right is not proved, and tested in `wp_machine_tests`; to a step that asks the history no is also said in a world whose
//! history is not legal, which no run reaches.
//!
//! Want of memory is an answer by itself. A number past its type's end is answered so too, and no run comes to one.
#![tactic(auto)]

mod needs;
mod permitted;
pub mod possible;

pub use permitted::permits;
