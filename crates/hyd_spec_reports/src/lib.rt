//! Definitions alone: the lines of a report and what each claims, and the statements about whole runs. No function here
//! has a body.
#![tactic(auto)]
