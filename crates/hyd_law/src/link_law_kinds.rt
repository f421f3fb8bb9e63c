//! The laws that a link can have.
#![tactic(auto)]

use crate::law_kinds::{Bent, Capped, Held, Lifted, Linear, OneWay, Power, Quad, Shut};

/// The law of a link in its state, between tanks that may be full or empty.
#[derive(Drop)]
pub enum LinkLaw {
    Shut(Shut),
    Quad(Quad),
    Linear(Linear),
    QuadOneWay(OneWay<Quad>),
    LinearOneWay(OneWay<Linear>),
    Pump(OneWay<Lifted<Quad>>),
    Limit(Capped<Quad>),
    LinearLimit(Capped<Linear>),
    LimitOneWay(OneWay<Capped<Quad>>),
    LinearLimitOneWay(OneWay<Capped<Linear>>),
    Power(Power),
    PowerOneWay(OneWay<Power>),
    Bent(Held<Bent>),
}
