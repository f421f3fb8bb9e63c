//! Definitions alone: the text of a generated network. No function here has a body.
#![tactic(auto)]
