ghost use Rattle.std.specs.Prelude.{◌≡◌, Ok, IfOk, OnErr, IsErr};
ghost use Rattle.wp_outside.specs.Faults.{HasCause};

use std::io;
use wp_outside::Failed;

/// Hands an answer of std on; an error raises the count of faults, which stays at the greatest `u64`.
pub(crate) fn counted<T>(faults: &mut u64, answer: io::Result<T>) -> Result<T, Failed>
    ensures ok { IfOk answer (λ value. result ≡ Ok value) }
    ensures err { OnErr answer (IsErr result) }
    ensures cause { HasCause faults.old faults.new result }
{
    match answer {
        Ok(value) => Ok(value),
        Err(_) => {
            *faults = faults.saturating_add(1);
            Err(Failed)
        }
    }
}
