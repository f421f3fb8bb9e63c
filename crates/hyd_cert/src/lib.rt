//! The text of a certificate: its records, with or without the vectors of named links, what puts them out, and what
//! reads them, with the line and the cause of a fault; and the version of a network's certificates.
//!
//! Tested by the rows of `hyd_stored_rows`.
#![tactic(auto)]

mod answers_of_reader;
mod certificate_version;
mod flow_part;
mod lines;
mod lines_with_flows;
mod named_vectors;
mod reader;
mod reader_with_flows;
mod record;
mod theorems_on_texts_and_faults;
mod writer;
mod writer_with_flows;

pub use answers_of_reader::{CertFault, CertNext, EndLine, Stand};
pub use certificate_version::version_of;
pub use flow_part::{FlowPart, MOST_NAMES};
pub use named_vectors::NamedVectors;
pub use reader::CertReader;
pub use record::{Record, has_small_numbers};
pub use theorems_on_texts_and_faults::{
    certificates_by_lines, fault_behind_records, fault_is_first, first_fault_is_one,
    reading_is_whole, record_has_a_header, refused_is_no_certificate,
};
pub use writer::{put_end, put_header, put_record};
pub use writer_with_flows::{put_flows, put_flows_header};

/// The error of a call that found no memory.
pub use std::alloc::AllocError as OutOfMemory;
