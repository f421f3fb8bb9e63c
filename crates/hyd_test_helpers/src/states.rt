//! The states of links at first and as they are commanded.
#![tactic(auto)]

ghost use Rattle.std.specs.Prelude.{IfOk, IfSome};
ghost use Rattle.hyd_num.specs.declared.flow_units.FlowUnit.{FlowUnit};
ghost use Rattle.hyd_net.specs.RoundedFileNumbers.{IsStateMade};
ghost use Rattle.hyd_net.specs.Sound.{IsSound};
ghost use Rattle.hyd_net.specs.LinkStates.{CanHave};
ghost use Rattle.hyd_period_network.specs.LawsInSettings.{AreStates};

use hyd_net::{LinkKind, LinkState, OutOfMemory, Project};
use std::alloc::Global;

/// The states of the links at first.
pub fn starts(alloc: Global, project: &Project) -> Result<Vec<LinkState>, OutOfMemory>
    requires { IsSound project.now }
    ensures { IfOk result (λ states. AreStates project.now states.items) }
{
    let links = project.links.as_slice();
    let mut states = Vec::new(alloc);
    for link in links {
        states.push(link.start)?;
    }
    Ok(states)
}

/// What a link is commanded to be: open, closed, or a pump that runs at a speed in billionths.
#[derive(Clone, Copy, Drop)]
pub enum Order {
    Open,
    Close,
    Run(i64),
}

// An open link of a kind, if it isn't a pump.
fn opened(kind: &LinkKind) -> Option<LinkState>
    ensures can { IfSome result (λ state. CanHave kind.now state) }
    ensures made { (unit : FlowUnit) → IfSome result (λ state. IsStateMade unit state) }
{
    match kind {
        LinkKind::Pipe(_) => Some(LinkState::Open),
        LinkKind::CheckPipe(_) => Some(LinkState::Open),
        LinkKind::Pump { .. } => None,
        LinkKind::CurvePump { .. } => None,
        LinkKind::Tcv { .. } => Some(LinkState::Open),
        LinkKind::Fcv { .. } => Some(LinkState::Open),
        LinkKind::Gpv { .. } => Some(LinkState::Open),
    }
}

// A link of a kind at a speed, if it is a pump.
fn running(kind: &LinkKind, nano: i64) -> Option<LinkState>
    ensures can { IfSome result (λ state. CanHave kind.now state) }
    ensures made { (unit : FlowUnit) → IfSome result (λ state. IsStateMade unit state) }
{
    if nano < 1 || nano > 10_000_000_000 {
        return None;
    }
    match kind {
        LinkKind::Pump { .. } => Some(LinkState::Speed(nano)),
        LinkKind::CurvePump { .. } => Some(LinkState::Speed(nano)),
        _ => None,
    }
}

// The state that an order asks of a link of a kind, if that is one that it can have.
fn state_by(kind: &LinkKind, order: Order) -> Option<LinkState>
    ensures can { IfSome result (λ state. CanHave kind.now state) }
    ensures made { (unit : FlowUnit) → IfSome result (λ state. IsStateMade unit state) }
{
    match order {
        Order::Open => opened(kind),
        Order::Close => Some(LinkState::Closed),
        Order::Run(nano) => running(kind, nano),
    }
}

/// Commands a link, and says whether it can be so commanded.
pub fn command(project: &Project, states: &mut [LinkState], link: u32, order: Order) -> bool
    requires { AreStates project.now states.old }
    ensures { AreStates project.now states.new }
{
    let links = project.links.as_slice();
    let number = link as usize;
    if number >= states.len() || number >= links.len() {
        return false;
    }
    let Some(state) = state_by(&links[number].kind, order) else {
        return false;
    };
    states[number] = state;
    true
}
