//! The outside: files and standard output as a trait, `Desk`, with what its calls fail by; a desk in memory and one on
//! real files; and over any of them the reading of a whole file and buffered writing through a pen. Beside them what a
//! person is told apart from the output, and how often a long work shows itself.
//!
//! Tested by `hyd_stored_rows` (the desk in memory, pens) and `hyd_tests_on_files` (real files).
#![tactic(auto)]

pub mod desk;
pub mod desk_in_memory;
pub mod desk_on_files;
pub mod failure;
mod files_to_read;
mod files_to_write;
pub mod input;
pub mod output;
pub mod pace;
mod same_files;
mod terminal;

pub use desk::{Desk, Failed, Faults, Openings};
pub use desk_in_memory::MemDesk;
pub use desk_on_files::FileDesk;
pub use failure::{Call, Failure};
pub use input::{InFault, read_all};
pub use output::{BUFFER_BYTES, Channel, OutFault, Pen, put_number};
pub use pace::Pace;
