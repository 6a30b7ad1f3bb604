ghost use Rattle.std.specs.Prelude.{◌≡◌, ◌≤◌, length, IfOk};
ghost use Rattle.wp_model.specs.WordBytes.{bytes_in, Fits};

use std::alloc::{AllocError, Global};

/// How many bytes a word has in itself at most.
const SHORT: usize = 22;

/// How many bytes a word has in a box of one size at most, as many as the longest key.
const MIDDLE: usize = 64;

/// The bytes of a word: of the shorter ones how many there are, and places for the most.
#[derive(Drop)]
pub(crate) enum WordBytes {
    Short(u8, [u8; SHORT]),
    Middle(u8, Box<[u8; MIDDLE]>),
    Long(Box<Vec<u8>>),
}

fn short(bytes: &[u8]) -> WordBytes
    requires { length bytes.now ≤ SHORT }
    ensures value { bytes_in result ≡ bytes.now }
    ensures fits { Fits result }
{
    let mut places = [0; SHORT];
    places[..bytes.len()].copy_from_slice(bytes);
    WordBytes::Short(bytes.len() as u8, places)
}

fn middle(alloc: Global, bytes: &[u8]) -> Result<WordBytes, AllocError>
    requires { length bytes.now ≤ MIDDLE }
    ensures value { IfOk result (λ it. bytes_in it ≡ bytes.now) }
    ensures fits { IfOk result Fits }
{
    let mut places = [0; MIDDLE];
    places[..bytes.len()].copy_from_slice(bytes);
    Ok(WordBytes::Middle(bytes.len() as u8, Box::new(alloc, places)?))
}

fn long(alloc: Global, bytes: &[u8]) -> Result<WordBytes, AllocError>
    ensures value { IfOk result (λ it. bytes_in it ≡ bytes.now) }
    ensures fits { IfOk result Fits }
{
    let bytes = Vec::from_slice(alloc, bytes)?;
    Ok(WordBytes::Long(Box::new(alloc, bytes)?))
}

impl WordBytes {
    pub(crate) fn of(alloc: Global, bytes: &[u8]) -> Result<WordBytes, AllocError>
        ensures value { IfOk result (λ it. bytes_in it ≡ bytes.now) }
        ensures fits { IfOk result Fits }
    {
        if bytes.len() <= SHORT {
            Ok(short(bytes))
        } else if bytes.len() <= MIDDLE {
            middle(alloc, bytes)
        } else {
            long(alloc, bytes)
        }
    }

    pub(crate) fn as_slice(&self) -> &[u8]
        requires { Fits self.now }
        ensures { result.now ≡ bytes_in self.now }
    {
        match self {
            WordBytes::Short(len, places) => &places[..*len as usize],
            WordBytes::Middle(len, places) => &places[..*len as usize],
            WordBytes::Long(bytes) => bytes,
        }
    }
}
