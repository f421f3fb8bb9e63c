//! Boxes of flows between the tight vectors of small networks, and status words, against an independent program.
#![tactic(auto)]

ghost use Rattle.std.specs.Prelude.{IsTrue};
ghost use Rattle.hyd_spec_certificates.specs.declared.Side.TheVariants.{Upper, Lower};
ghost use Rattle.hyd_spec_certificates.specs.Certificate.{IsCertificate};
ghost use Rattle.hyd_period_network.specs.NetAsPeriodNetwork.{grid_of};
ghost use Rattle.hyd_period_network.specs.SoundNets.{HasProblem};
ghost use Rattle.hyd_theorems_on_definitions.specs.SoundLawsAndGrids.{TanksInOrder};
ghost use Rattle.hyd_bounds.specs.VectorsInOrder.{IsVector};

use crate::networks::{Flow, Network, Row};
use hyd_bounds::{flow_box, out_box, pinned_in_order, status_of, tank_inflow};
use hyd_period_network::Net;
use hyd_spec_certificates::{Problem, StatusWord};
use hyd_vector_check::{check_sub, check_super, is_in_box};

// The vector of a row.
fn vector(rows: &'static [Row], number: usize) -> &'static [i64] {
    match rows.get(number) {
        Some(row) => row.2,
        None => &[],
    }
}

// Whether vectors are certificates of both sides.
fn are_certificates(net: &Net, problem: Problem, low: &[i64], high: &[i64]) -> bool
    requires { HasProblem net.now problem }
    ensures lower { IsTrue result → IsCertificate (grid_of net.now) problem Lower low.now }
    ensures upper { IsTrue result → IsCertificate (grid_of net.now) problem Upper high.now }
    ensures below { IsTrue result → IsVector net.now low.now }
    ensures above { IsTrue result → IsVector net.now high.now }
{
    let junctions = net.junctions() as usize;
    if low.len() != junctions || high.len() != junctions {
        return false;
    }
    if let Err(_) = check_sub(net, problem, low) {
        return false;
    }
    if let Err(_) = check_super(net, problem, high) {
        return false;
    }
    true
}

// The ends of what flows in a link.
fn flow(net: &Net, link: u32, low: &[i64], high: &[i64]) -> Option<(i128, i128)>
    requires { TanksInOrder (grid_of net.now) }
{
    let _junctions = net.junctions();
    if link >= net.links() || !are_certificates(net, Problem::Main, low, high) {
        return None;
    }
    let flow = flow_box(net, link, low, high);
    Some((flow.lo, flow.hi))
}

// The ends of what leaves a junction beside its links.
fn outflow(net: &Net, junction: u32, low: &[i64], high: &[i64]) -> Option<(i128, i128)> {
    let least = *low.get(junction as usize)?;
    let most = *high.get(junction as usize)?;
    if junction >= net.junctions() || !is_in_box(least) || !is_in_box(most) || least > most {
        return None;
    }
    let flow = out_box(net, junction, least, most);
    Some((flow.lo, flow.hi))
}

// The ends of what flows into a tank.
fn inflow(net: &Net, tank: u32, low: &[i64], high: &[i64]) -> Option<(i128, i128)>
    requires { TanksInOrder (grid_of net.now) }
{
    let _junctions = net.junctions();
    if tank >= net.tanks() || !are_certificates(net, Problem::Pinned(tank), low, high) {
        return None;
    }
    pinned_in_order();
    let flow = tank_inflow(net, tank, low, high);
    Some((flow.lo, flow.hi))
}

// The word of a link.
fn word(net: &Net, link: u32, low: &[i64], high: &[i64]) -> Option<StatusWord> {
    if link >= net.links() || !are_certificates(net, Problem::Main, low, high) {
        return None;
    }
    Some(status_of(net, link, low, high))
}

// Whether links have these words.
fn are_words(net: &Net, rows: &'static [Row], words: &[(u32, StatusWord)]) -> bool {
    for row in words {
        let Some(found) = word(net, row.0, vector(rows, 1), vector(rows, 0)) else {
            return false;
        };
        if found != row.1 {
            return false;
        }
    }
    true
}

// Whether these are the flows of links.
fn are_flows(net: &Net, rows: &'static [Row], flows: &[Flow]) -> bool
    requires { TanksInOrder (grid_of net.now) }
{
    for row in flows {
        if flow(net, row.0, vector(rows, 1), vector(rows, 0)) != Some((row.1, row.2)) {
            return false;
        }
    }
    true
}

// The same of what leaves junctions.
fn are_outflows(net: &Net, rows: &'static [Row], flows: &[Flow]) -> bool {
    for row in flows {
        if outflow(net, row.0, vector(rows, 1), vector(rows, 0)) != Some((row.1, row.2)) {
            return false;
        }
    }
    true
}

// The vectors of a tank's rows, which stand behind those of the whole network.
fn tank_vectors(rows: &'static [Row], tank: u32) -> (&'static [i64], &'static [i64]) {
    if tank == 0 {
        return (vector(rows, 3), vector(rows, 2));
    }
    (vector(rows, 5), vector(rows, 4))
}

// The same of what flows into tanks.
fn are_inflows(net: &Net, rows: &'static [Row], flows: &[Flow]) -> bool
    requires { TanksInOrder (grid_of net.now) }
{
    for row in flows {
        let (low, high) = tank_vectors(rows, row.0);
        if inflow(net, row.0, low, high) != Some((row.1, row.2)) {
            return false;
        }
    }
    true
}

/// Whether what lies between the tight vectors is as the network says, if it says something.
pub(crate) fn are_bounds(net: &Net, project: &Network) -> bool
    requires { TanksInOrder (grid_of net.now) }
{
    let Some(bounds) = &project.bounds else {
        return true;
    };
    let rows = project.rows;
    are_words(net, rows, bounds.words)
        && are_flows(net, rows, bounds.flows)
        && are_outflows(net, rows, bounds.outflows)
        && are_inflows(net, rows, bounds.inflows)
}
