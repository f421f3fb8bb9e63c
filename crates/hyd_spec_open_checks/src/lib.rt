//! Definitions alone: what a check of a certificate of version 4 gives, whose periods may end between two seconds; and
//! what such a run or check leaves that a fault of the outside broke off. No function here has a body.
#![tactic(auto)]
