//! Definitions of the laws of pipes with Hazen-Williams losses: how near the ends of a capacity stand, and the whole
//! flows that enclose the exact one at a scale. No function here has a body.
#![tactic(auto)]
