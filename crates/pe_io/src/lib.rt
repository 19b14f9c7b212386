//! Where scenarios and streams lie and where text goes: the shelf and the sink, over real files and standard
//! output, and twins in memory that tell what they hold.
#![tactic(auto)]

mod call_log;
mod file_shelf;
mod line;
mod mem_shelf;
mod mem_sink;
mod named_bytes;
mod numbers;
mod shelf;
mod sink;
mod std_sink;
mod sure_shelf;
mod sure_sink;
mod whole;

pub use file_shelf::FileShelf;
pub use line::Line;
pub use mem_shelf::MemShelf;
pub use mem_sink::MemSink;
pub use shelf::{Got, PutFault, Shelf, ShelfCall};
pub use sink::{Sink, SinkFailed};
pub use std_sink::StdSink;
pub use sure_shelf::SureShelf;
pub use sure_sink::SureSink;
pub use whole::{read_whole, write_whole};
