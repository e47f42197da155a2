//! The program: words to names, files as the shelf, standard output as the sink.
#![tactic(auto)]

mod file_shelf;
mod words;

use file_shelf::FileShelf;
use pr_outside::StreamSink;
use prairie_top::{Status, run};
use std::io;
use std::process::ExitCode;

fn main(rt: HostRuntime) -> ExitCode {
    let mut shelf = FileShelf::new(&rt);
    let mut out = StreamSink::new(io::writer(&rt));
    let status = match words::words(&rt) {
        Ok(words) => run(rt.alloc(), words.as_slice(), &mut shelf, &mut out),
        Err(_) => Status::Memory,
    };
    status.exit_code()
}
