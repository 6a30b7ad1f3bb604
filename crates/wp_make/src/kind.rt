//! How many replies of a kind the clients had.
ghost use Rattle.std.specs.Prelude.{◌≡◌, map, IfOk};
ghost use Rattle.wp_make.specs.Totals.{is_of, count_of};

use std::alloc::{AllocError, Global};
use wp_text::Reply;

/// What a reply that is counted tells.
#[derive(Clone, Copy)]
pub(crate) enum Kind {
    /// A put or a deletion that was written at once.
    Puts,
    Commits,
    /// A prepared transaction rolled back.
    RollBacks,
    /// A value read.
    Gets,
    /// A key read that has no value.
    Missing,
}

fn is_of(kind: Kind, reply: &Reply) -> bool
    ensures { result ≡ is_of kind reply.now }
{
    match kind {
        Kind::Puts => matches!(reply, Reply::Put(_) | Reply::Del(_)),
        Kind::Commits => matches!(reply, Reply::Committed(_)),
        Kind::RollBacks => matches!(reply, Reply::RolledBack(_)),
        Kind::Gets => matches!(reply, Reply::Got(_, _) | Reply::GotOwn(_)),
        Kind::Missing => matches!(reply, Reply::Missing(_) | Reply::MissingOwn),
    }
}

/// How many of the clients' replies are of the kind.
pub(crate) fn count_of(kind: Kind, sessions: &[&[Reply]]) -> Result<u64, AllocError>
    ensures { IfOk result (λ n. n ≡ count_of kind (map (λ replies. replies.now) sessions.now)) }
{
    let mut total = 0u64;
    for replies in sessions {
        let count = replies.iter().filter(|reply| is_of(kind, reply)).count();
        total = total.checked_add(count as u64).ok_or(AllocError)?;
    }
    Ok(total)
}
