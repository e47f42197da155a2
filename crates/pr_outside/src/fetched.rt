// A fetch from a reader.
ghost use Rattle.std.specs.Prelude.{◌≡◌};
ghost use Rattle.pr_outside.specs.Fetched.{IsFetched, IsUnfetched, of_read_error};

use crate::bytes::Bytes;
use crate::shelf::FetchError;
use crate::streams::{ReadError, read_up_to};
use std::alloc::Global;
use std::io;
use std::io::Read;

/// Why a fetch gave no bytes, where a read did not.
fn fetch_error(error: ReadError) -> FetchError
    ensures { result ≡ of_read_error error }
{
    match error {
        ReadError::Failed => FetchError::Failed,
        ReadError::Memory => FetchError::Memory,
    }
}

/// What a fetch came to, and how many bytes it took.
#[derive(Drop)]
pub struct Fetched {
    pub answer: Result<Bytes, FetchError>,
    pub taken: usize,
}

impl Fetched {
    /// Nothing could be taken, for this reason.
    pub fn failed(error: io::Error) -> Fetched
        ensures { IsUnfetched result.answer }
    {
        Fetched {
            answer: Err(fetch_error(ReadError::from(error))),
            taken: 0,
        }
    }
}

/// The bytes of a reader to its end, of which there may be `most`. Of more it takes one.
pub fn fetch_reader<R: Read>(alloc: Global, reader: &mut R, most: usize) -> Fetched
    ensures { IsFetched (R.remaining reader.old) (R.remaining reader.new) most result.taken
        result.answer }
{
    let mut bytes = Vec::new(alloc);
    let read = read_up_to(reader, most, &mut bytes);
    let taken = bytes.len();
    let answer = match read {
        Ok(()) if taken > most => Err(FetchError::TooLong),
        Ok(()) => Ok(Bytes::from_vec(bytes)),
        Err(error) => Err(fetch_error(error)),
    };
    Fetched { answer, taken }
}
