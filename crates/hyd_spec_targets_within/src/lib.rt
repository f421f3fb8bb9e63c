//! Definitions alone: what the commands on a target pressure promise for a spread. No function here has a body.
#![tactic(auto)]
