ghost use Rattle.std.specs.Prelude.{◌≡◌};
ghost use Rattle.wp_text.specs.declared.fault.LineError.TheVariants.{Memory};
ghost use Rattle.wp_text.specs.Reading.{script_error};

use std::alloc::{AllocError, AllocFailed};
use thiserror::Error;
use wp_model::WordError;

/// What is wrong with a script. In one line the first of these that fits is named.
#[derive(Clone, Copy, Debug, Error)]
pub enum Why {
    /// The script has more bytes than `MOST_BYTES`.
    #[error("too long")]
    TooLong,
    /// The line has more bytes than `MOST_LINE_BYTES`.
    #[error("line long")]
    LineLong,
    /// One of the bytes is outside the space to `~`.
    #[error("bad byte")]
    BadByte,
    /// No command begins with the first word, or it has another number of words, or the third of four words that
    /// begin with `get`, or the fourth of five that begin with `scan`, is not `at`, or a `settle` has a name twice.
    #[error("bad command")]
    BadCommand,
    /// A key, a value or a name is too long.
    #[error("bad word")]
    BadWord,
    /// A command comes before the first client.
    #[error("no client")]
    NoClient,
    /// The client has a part already.
    #[error("client twice")]
    ClientTwice,
    /// There are `MOST_CLIENTS` clients already.
    #[error("many clients")]
    ManyClients,
}

/// The first fault of a script.
#[derive(Clone, Copy, Debug, Error)]
#[error("script line {line}: {why}")]
pub struct Fault {
    /// The line, from 1 on; 0 means the script as a whole.
    pub line: usize,
    pub why: Why,
}

/// Why a script could not be read.
#[derive(Clone, Copy, Debug, Error)]
pub enum ScriptError {
    #[error("out of memory")]
    Memory,
    #[error(transparent)]
    Fault(Fault),
}

/// Why a line could not be read.
#[derive(Clone, Copy)]
pub(crate) enum LineError {
    Memory,
    Wrong(Why),
}

impl LineError {
    /// The same of a script, in the line of that number.
    pub fn in_line(self, line: usize) -> ScriptError
        ensures { result ≡ script_error line self }
    {
        match self {
            LineError::Memory => ScriptError::Memory,
            LineError::Wrong(why) => ScriptError::Fault(Fault { line, why }),
        }
    }
}

impl From<AllocError> for LineError {
    ghost from_gives = { λ _ e. e ≡ Memory };

    fn from(_e: AllocError) -> LineError {
        LineError::Memory
    }
}

impl<T: Drop> From<AllocFailed<T>> for LineError {
    ghost from_gives = { λ _ e. e ≡ Memory };

    fn from(_e: AllocFailed<T>) -> LineError {
        LineError::Memory
    }
}

impl From<WordError> for LineError {
    ghost use Rattle.wp_text.specs.Reading.{error_of_word};

    ghost from_gives = { λ e error. error ≡ error_of_word e };

    fn from(e: WordError) -> LineError {
        match e {
            WordError::Memory => LineError::Memory,
            WordError::BadWord => LineError::Wrong(Why::BadWord),
        }
    }
}
