//! Definitions alone: the lines that print the flows of named links, and the statements about whole runs with them. No
//! function here has a body.
#![tactic(auto)]
