ghost use Rattle.std.specs.Prelude.{◌≡◌, ◌≢◌, ◌≤◌, ◌↔◌, length, IsTrue, IsErrAnd, IfOk, IfErr};
ghost use Rattle.std.specs.IoError.{error_kind};
ghost use Rattle.std.specs.Io.KnownBytes.{ReadConsumes};

use std::io::{self, ErrorKind, Read};

fn was_interrupted<T>(answer: &io::Result<T>) -> bool
    ensures { IsTrue result ↔ IsErrAnd answer.now (λ e. error_kind e ≡ ErrorKind.Interrupted) }
{
    match answer {
        Ok(_) => false,
        Err(error) => error.kind() == ErrorKind::Interrupted,
    }
}

/// Reads some bytes to the front of `buf`, and says how many; none at the end. A read that a signal broke off is
/// made again.
pub(crate) fn read_some<R: Read>(reader: &mut R, buf: &mut [u8]) -> io::Result<usize>
    ensures bound { IfOk result (λ n. n ≤ length buf.new) }
    ensures bytes { ReadConsumes (R.remaining reader.old) (R.remaining reader.new) result buf.new }
    ensures retried { IfErr result (λ e. error_kind e ≢ ErrorKind.Interrupted) }
{
    for _ in 0..u64::MAX {
        let answer = reader.read(buf);
        if !was_interrupted(&answer) {
            return answer;
        }
    }
    Err(ErrorKind::TimedOut.into())
}
