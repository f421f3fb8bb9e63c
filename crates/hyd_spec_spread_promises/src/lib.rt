//! Definitions alone: what runs for a spread and checks of their certificates promise. No function here has a body.
#![tactic(auto)]
