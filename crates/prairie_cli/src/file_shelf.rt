ghost use Rattle.std.specs.Prelude.{◌≡◌, None, false};

use pr_outside::{Bytes, FetchError, Fetched, Name, Shelf, fetch_reader, one_more};
use std::alloc::Global;
use std::fs;
use std::rt::Files;

/// The files of the system. It tells nothing of their content.
#[derive(Drop)]
pub struct FileShelf<'a, R> {
    rt: &'a R,
    faults: u64,
    taken: usize,
}

impl<'a, R: Files> FileShelf<'a, R> {
    /// No fetch has failed yet.
    pub fn new(rt: &'a R) -> FileShelf<'a, R>
        ensures { result.faults ≡ 0 }
    {
        FileShelf {
            rt,
            faults: 0,
            taken: 0,
        }
    }
}

impl<'a, R: Files> Shelf for FileShelf<'a, R> {
    ghost held = { λ _. None };

    ghost faults = { λ s. s.faults };

    ghost sure = { λ _. false };

    ghost taken = { λ s. s.taken };

    fn fetch(&mut self, alloc: Global, name: &Name, most: usize) -> Result<Bytes, FetchError> {
        let faults = self.faults;
        let fetched = match fs::open(self.rt, name.as_str()) {
            Ok(mut file) => fetch_reader(alloc, &mut file, most),
            Err(error) => Fetched::failed(error),
        };
        self.taken = fetched.taken;
        if let Err(FetchError::Failed) = fetched.answer {
            self.faults = one_more(faults);
        }
        fetched.answer
    }
}
