//! The text of a certificate whose periods may end between two seconds, version 4: its records, what puts them out, and
//! what reads them, with the line and the cause of a fault.
//!
//! Tested by the rows of `hyd_stored_open_certificates`.
#![tactic(auto)]

mod lines;
mod lines_of_text;
mod open_row;
mod reader;
mod theorems_on_open_texts;
mod writer;

pub use open_row::OpenRow;
pub use reader::OpenCertReader;
pub use theorems_on_open_texts::{
    faults_behind_records, lines_with_faults, one_open_reading, open_reading_is_whole,
    refused_is_no_open_certificate, versions_apart,
};
pub use writer::{put_open_header, put_open_record};

/// The error of a call that found no memory.
pub use std::alloc::AllocError as OutOfMemory;
