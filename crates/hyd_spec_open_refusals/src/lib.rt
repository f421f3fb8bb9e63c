//! Definitions alone: why a record of a certificate of version 4 is refused, whose periods may end between two seconds,
//! and what a check of such a certificate answers that refuses a record or the end line. No function here has a body.
//!
//! Laws on them stand in `hyd_theorems_on_open_refusals`.
#![tactic(auto)]
