//! Definitions alone: why a run for a spread with a slack can't go on from a standing. No function here has a body.
#![tactic(auto)]
