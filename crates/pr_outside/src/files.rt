ghost use Rattle.std.specs.Prelude.{◌≡◌, ◌≢◌, IsErrOf, IsOk};
ghost use Rattle.std.specs.Option.{option_copied};
ghost use Rattle.std.specs.FinMap as map;
ghost use Rattle.pr_outside.specs.Files.{held_under};
ghost use Rattle.pr_outside.specs.Fetched.{answer_at};

use crate::bytes::Bytes;
use crate::name::Name;
use crate::shelf::FetchError;
use std::alloc::Global;
use std::collections::VecDeque;

/// The bytes under a name. The newest file comes first, and hides the older ones of its name.
pub fn find<'a>(files: &'a VecDeque<(Name, Bytes)>, name: &Name) -> Option<&'a Bytes>
    ensures { option_copied result ≡ held_under (map.from_entries files.now.items) name.now }
{
    for (held, bytes) in files {
        if name.as_str() == held.as_str() {
            return Some(bytes);
        }
    }
    None
}

/// A copy of the bytes under a name, of which there may be `most`; where it `fails`, no copy is made.
pub fn fetch_from(
    files: &VecDeque<(Name, Bytes)>,
    alloc: Global,
    name: &Name,
    most: usize,
    fails: bool,
) -> Result<Bytes, FetchError>
    ensures answers { result ≢ Err FetchError.Memory → result ≡ answer_at (held_under (map.from_entries files.now.items) name.now) most fails }
    ensures memory { IsErrOf result FetchError.Memory → IsOk (answer_at (held_under (map.from_entries files.now.items) name.now) most fails) }
{
    let Some(bytes) = find(files, name) else {
        return Err(FetchError::Failed);
    };
    copy_up_to(bytes.as_slice(), alloc, most, fails)
}

fn copy_up_to(bytes: &[u8], alloc: Global, most: usize, fails: bool) -> Result<Bytes, FetchError>
    ensures answers { result ≢ Err FetchError.Memory → result ≡ answer_at (Some bytes.now) most fails }
    ensures memory { IsErrOf result FetchError.Memory → IsOk (answer_at (Some bytes.now) most fails) }
{
    if most < bytes.len() {
        return Err(FetchError::TooLong);
    }
    if fails {
        return Err(FetchError::Failed);
    }
    match Bytes::new(alloc, bytes) {
        Ok(copy) => Ok(copy),
        Err(_) => Err(FetchError::Memory),
    }
}
