//! Definitions alone: what finding a witness and checking one print, write and promise. No function here has a body.
#![tactic(auto)]
