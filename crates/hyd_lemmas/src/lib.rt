//! Lemmas alone, each in its one home: integers, tests, lists, and what the pairs made of a file's numbers enclose and
//! how sharp they are. No function here has a body, and nothing here is a promise.
#![tactic(auto)]
