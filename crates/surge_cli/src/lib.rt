//! The program as one call, from the bytes of the files that its words name, or the number of a sample, to the bytes of its
//! output.
//!
//! It stands on the rooms that read (`graph_loader`, `gvdl_parser`), on the sample (`sample_data`), on those that check and print
//! a script (`gvdl_check`, `gvdl_printer`), on the room that executes a plan (`surge_session`), on the one that reads and
//! replays change texts (`change_text`), on the ends of the program (`surge_outside`) and on `clap`, which reads the words. Its
//! public call is [`surge`], which the program's `main` makes with the real ends. Inside, in the order of the walk: the words,
//! whole files within their limits or a sample, the stages up to a plan over a graph or up to the blocks of a change text, what
//! is due of them, and the line of a status. The files of a script are its own, the two of its data, and those that it inserts.
//! Its promise is the headline, in `specs/Headline.antt`: where the files tell their bytes, or a sample is asked for, and the
//! status is [`Status::Done`], what was written is exactly what is due (`specs/Output.antt`). Of a script that is the text of
//! each statement, of which the tables are those of the lone runs over the edges of each view (`Output.antt` of
//! `surge_session`), and the updater was called at most as often as the works of these views say; of a change text it is the
//! tables that its blocks come to, and the updater was not called. Every other status is the one that is expected
//! (`specs/Expected.antt`) or has its cause (`specs/Causes.antt`), that of a file only where the file was reached
//! (`specs/Reaches.antt`), and no other file was asked for.
#![tactic(auto)]

mod job;
mod named_files;
mod reading;
mod replaying;
mod running;
mod script_line;
mod session;
mod stages;
mod status;
mod words;

pub use change_text::ReplayFault;
pub use graph_loader::{DataFault, DataFile, DataKind};
pub use gvdl_check::StatementFault;
pub use gvdl_parser::ScriptFault;
pub use gvdl_programs::Refusal;
pub use named_files::NamedFiles;
pub use running::{refuse_words, surge};
pub use script_line::ScriptRefusal;
pub use status::{FileRole, Status};
