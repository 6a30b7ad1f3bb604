use std::alloc::{AllocError, AllocFailed};

/// Why a line could not be played, or does not come out as it says.
#[derive(Clone, Copy)]
pub(crate) enum Trouble {
    Memory,
    /// It says nothing that is known.
    Unclear,
    /// A step is not permitted, or something is otherwise than it says.
    Wrong,
}

impl Trouble {
    pub(crate) fn why(self) -> &'static str {
        match self {
            Trouble::Memory => "out of memory",
            Trouble::Unclear => "not understood",
            Trouble::Wrong => "otherwise",
        }
    }
}

pub(crate) type Tried<T> = Result<T, Trouble>;

impl From<AllocError> for Trouble {
    fn from(_error: AllocError) -> Trouble {
        Trouble::Memory
    }
}

impl<T: Drop> From<AllocFailed<T>> for Trouble {
    fn from(_error: AllocFailed<T>) -> Trouble {
        Trouble::Memory
    }
}

/// The number that a word is.
pub(crate) fn number(word: &str) -> Tried<u64> {
    match word.parse::<u64>() {
        Ok(number) => Ok(number),
        Err(_) => Err(Trouble::Unclear),
    }
}
