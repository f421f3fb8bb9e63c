//! What histories can do: small networks in which each kind of link and of outflow is at work have histories, each
//! status word holds and fails where it should, and controls by time end periods. The numbers come from solving the
//! laws in exact whole numbers. No function here has a body.
#![tactic(auto)]

pub mod claims;
pub mod controls;
pub mod limited_and_closed_links;
pub mod networks;
pub mod outflows;
pub mod pipes;
pub mod pump_valve_and_outflows_at_work;
pub mod status_words;
