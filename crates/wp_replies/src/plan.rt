use std::marker::Model;
use wp_model::{Batch, Entry, Name, Seq};
use wp_text::Reply;

/// Numbers of prepares.
pub struct Numbers {
    items: Vec<Seq>,
}

impl Model for Numbers {
    ghost use Rattle.std.specs.Prelude.{ℕ, List};

    ghost Value = { List ℕ };

    ghost view = { λ n. n.items.items };
}

/// What a command comes to.
pub enum Plan {
    /// It is answered so, and the log is not called.
    Say(Reply),
    /// The log is asked to take the entry, which the reply acknowledges.
    Log(Entry, Reply),
    /// The log is asked to take the Undo of the prepare with this number, which has this batch, and its Close. The reply
    /// has the number of the Close.
    RollBack(Seq, Batch, Reply),
    /// The log is asked to take the Commits of the prepares with these numbers, unless two of them have one place in the commit cache.
    Settle(Numbers),
    /// The versions that stand in memory are to be in one table more, where the tables take an edit.
    Flush,
    /// All tables are to be one, where the tables take an edit.
    Compact,
    /// The log is to begin behind the number published, where it does not yet, and where the log and the tables take it.
    Renew,
    /// The label is to have the number published.
    Tell(Name),
    /// The number published is heard, where something was told under the label.
    Hear(Name),
}
