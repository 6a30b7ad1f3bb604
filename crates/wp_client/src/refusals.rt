//! What a refusal is answered.
ghost use Rattle.std.specs.Prelude.{◌≡◌, ◌≢◌, Some, None, IfOk, OnErr};
ghost use Rattle.wp_open_txns.specs.declared.error.TxnError.TheVariants.{Silent};
ghost use Rattle.wp_client.specs.Replies.{refusal};

use std::alloc::AllocError;
use wp_open_txns::TxnError;
use wp_text::Reply;

/// The reply, unless memory was wanting. That a label is silent is not answered here, since the reply names it.
pub fn refusal(why: TxnError) -> Result<Reply, AllocError>
    requires { why ≢ Silent }
    ensures answered { IfOk result (λ answer. refusal why ≡ Some answer) }
    ensures err { OnErr result (refusal why ≡ None) }
{
    match why {
        TxnError::Memory => Err(AllocError),
        TxnError::Silent => unreachable!(),
        TxnError::Taken(name) => Ok(Reply::Taken(name)),
        TxnError::Busy(holder) => Ok(Reply::Busy(holder)),
        TxnError::TooMany => Ok(Reply::TooMany),
        TxnError::Conflict(number) => Ok(Reply::Conflict(number)),
        TxnError::Unknown { name, at } => Ok(Reply::Unknown { name, at }),
        TxnError::InUse(name) => Ok(Reply::InUse(name)),
        TxnError::Crowded { first, second } => Ok(Reply::Crowded { first, second }),
        TxnError::NumbersFull { published, limit } => Ok(Reply::Full { published, limit }),
        TxnError::LogFault => Ok(Reply::FaultLog),
        TxnError::Stopped(published) => Ok(Reply::Stopped(published)),
    }
}
