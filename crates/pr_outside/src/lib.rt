//! The outside of the program: where texts come from, and where output goes.
#![tactic(auto)]

mod bytes;
mod count;
mod fetched;
mod files;
mod mem_shelf;
mod mem_sink;
mod name;
mod shelf;
mod sink;
mod stream_sink;
mod streams;
mod sure_shelf;
mod sure_sink;

pub use bytes::Bytes;
pub use count::one_more;
pub use fetched::{Fetched, fetch_reader};
pub use mem_shelf::MemShelf;
pub use mem_sink::MemSink;
pub use name::Name;
pub use shelf::{FetchError, Shelf};
pub use sink::{PutError, Sink};
pub use stream_sink::StreamSink;
pub use streams::{ReadError, read_up_to, write_whole};
pub use sure_shelf::SureShelf;
pub use sure_sink::SureSink;
