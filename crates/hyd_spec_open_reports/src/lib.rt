//! Definitions alone: the lines of reports of runs whose ends of periods may be open by some seconds, what each
//! claims of a history, and what such runs and checks of their certificates promise. No function here has a body.
//!
//! Laws on them stand in `hyd_theorems_on_open_reports`.
#![tactic(auto)]
