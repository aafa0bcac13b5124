//! What a program reads and writes, as three traits and their versions in memory, and how a run ends.
#![tactic(auto)]

mod counts;
mod end;
mod files;
mod mem_files;
mod mem_stream;
mod stream;
mod table;

pub use end::{End, Ends, FaultKind, RunErr};
pub use files::{FileErr, Files, Found};
pub use mem_files::MemFiles;
pub use mem_stream::{MemSink, MemSource};
pub use stream::{Failed, Sink, Source, put_all};
