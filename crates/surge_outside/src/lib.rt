//! What stands outside the program, and the types that every other room uses.
//!
//! It stands on std alone, and every crate may stand on it. It offers small data types that contracts see as plain
//! values ([`Text`] as its bytes, [`List`] as its items, [`Boxed`] as the value in it), the one error of whatever takes
//! memory ([`NoMemory`]), records ([`Record`]), a counter that only contracts see ([`Steps`]), and the ends of the
//! program: where files come from ([`Files`]) and where text goes ([`Sink`]), each as a trait with a written meaning,
//! over memory and over the real system. Its promise to the rooms above: a failure or an absence is answered only
//! where the count of it rose, bytes that are read are those held, and what is written is what was handed over.
#![tactic(auto)]

mod boxed;
mod calls;
mod counted;
mod disk_files;
mod endless_files;
mod files;
mod list;
mod memory_files;
mod memory_sink;
mod no_memory;
mod record;
mod sink;
mod std_sink;
mod text;
mod trouble;

pub use boxed::Boxed;
pub use counted::{Counted, Steps};
pub use disk_files::DiskFiles;
pub use endless_files::EndlessFiles;
pub use files::{Fetched, Files};
pub use list::List;
pub use memory_files::{MemoryFiles, SureFiles};
pub use memory_sink::{MemorySink, SureSink};
pub use no_memory::NoMemory;
pub use record::Record;
pub use sink::{Sink, put_all};
pub use std_sink::StdSink;
pub use text::Text;
pub use trouble::Trouble;
