//! Parts checked: their names, and then their vectors.

ghost use Rattle.std.specs.Prelude.{◌≡◌, ℕ, ◌<◌, ◌↔◌, length, All, Some, IsTrue, IfSome, IfNone, IfErr, OnOk};
ghost use Rattle.std.specs.Prelude.{slice_get};
ghost use Rattle.hyd_cert.specs.FlowPartView.{named_of, links_in, part_of};
ghost use Rattle.hyd_cert.specs.RecordView.{row_of};
ghost use Rattle.hyd_period_network.specs.NetAsPeriodNetwork.{grid_of};
ghost use Rattle.hyd_spec.specs.Lists.{Each};
ghost use Rattle.hyd_spec_certificates.specs.Certificate.{IsInBox, Suits, FailsFirst};
ghost use Rattle.hyd_spec_certificates.specs.PeriodNetwork.{GridLink};
ghost use Rattle.hyd_spec_certificates.specs.declared.Problem.TheVariants.{Main};
ghost use Rattle.hyd_spec_certificates.specs.declared.Side.{Side};
ghost use Rattle.hyd_spec_flows.specs.FlowParts.{JoinsJunctions, HasItsVector, IsFlowPart, IsRefusedPart, held_for};
ghost use Rattle.hyd_spec_flows.specs.FlowParts.{NamesAreGood, IsHeldVector};
ghost use Rattle.hyd_spec_flows.specs.FlowTexts.{IsNamed};
ghost use Rattle.hyd_sweep.specs.Sweeps.{SuitsAt};
ghost use Rattle.hyd_flow.specs.GivenRecords.{IsGiven};
ghost use Rattle.hyd_flow.specs.RefusedVectors.{FailsAt};

use crate::held_nodes::held_for;
use crate::names::first_refused_name;
use hyd_cert::{FlowPart, NamedVectors, Record};
use hyd_period_network::Net;
use hyd_spec_certificates::{HeldJunction, Problem, Side};
use hyd_spec_flows::FlowFails;
use hyd_vector_check::{head_of, passes};

/// Whether two heads are the same.
fn is_same(a: i64, b: i64) -> bool
    ensures { IsTrue result ↔ a ≡ b }
{
    a == b
}

/// Whether what is asked of a junction holds, with one held.
fn suits(net: &Net, side: Side, held: &HeldJunction, u: &[i64], i: u32) -> bool
    requires one_each { length u.now ≡ length net.now.junctions }
    requires inside { i < length u.now }
    requires in_box { All IsInBox u.now }
    requires held_in_box { IsInBox held.now.head }
    ensures { IsTrue result ↔ SuitsAt (Some held.now) (grid_of net.now) Main side u.now i }
{
    let _junctions = net.junctions();
    if held.junction == i {
        let head = held.head;
        return is_same(head_of(u, i), head);
    }
    passes(net, Problem::Main, side, u, i)
}

/// The first junction at which what is asked of it doesn't hold.
pub(crate) fn first_failing(net: &Net, side: Side, held: &HeldJunction, u: &[i64]) -> Option<u32>
    requires one_each { length u.now ≡ length net.now.junctions }
    requires in_box { All IsInBox u.now }
    requires held_in_box { IsInBox held.now.head }
    ensures some { IfSome result (λ i. FailsFirst (Some held.now) (grid_of net.now) Main side u.now i) }
    ensures none { IfNone result
        (Each (grid_of net.now).junctions (Suits (Some held.now) (grid_of net.now) Main side u.now)) }
{
    for i in 0..net.junctions() {
        if !suits(net, side, held, u, i) {
            return Some(i);
        }
    }
    None
}

/// The first junction at which the vector of a side fails, in which the link's first node is held.
fn failing(net: &Net, row: &Record, from: u32, side: Side, u: &[i64]) -> Option<u32>
    requires given { IsGiven net.now row.now }
    requires inside { from < length net.now.junctions }
    requires one_each { length u.now ≡ length net.now.junctions }
    requires in_box { All IsInBox u.now }
    ensures some { (link : GridLink) → link.from ≡ from → IfSome result (λ i.
        FailsFirst (Some (held_for (row_of row.now) link side)) (grid_of net.now) Main side u.now i) }
    ensures none { (link : GridLink) → link.from ≡ from → IfNone result
        (IsHeldVector (grid_of net.now) (row_of row.now) link side u.now) }
{
    let _junctions = net.junctions();
    let held = held_for(row, from, side);
    first_failing(net, side, &held, u)
}

/// Checks the two vectors of a link that joins two junctions.
fn check_link(net: &Net, row: &Record, named: &NamedVectors) -> Result<(), FlowFails>
    requires given { IsGiven net.now row.now }
    requires named { IsNamed row.now.junctions (named_of named.now) }
    requires joins { JoinsJunctions (grid_of net.now) named.now.link }
    ensures good { OnOk result ((side : Side)
        → HasItsVector (grid_of net.now) (row_of row.now) (named_of named.now) side) }
    ensures fails { IfErr result (FailsAt (grid_of net.now) (row_of row.now) (named_of named.now)) }
{
    let _junctions = net.junctions();
    let _links = net.links();
    let link = named.link;
    let from = net.ends(link).from;
    if let Some(junction) = failing(net, row, from, Side::Upper, named.vector(Side::Upper)) {
        return Err(FlowFails::Vector {
            link,
            side: Side::Upper,
            junction,
        });
    }
    if let Some(junction) = failing(net, row, from, Side::Lower, named.vector(Side::Lower)) {
        return Err(FlowFails::Vector {
            link,
            side: Side::Lower,
            junction,
        });
    }
    Ok(())
}

/// Checks the vectors of links whose names are in order.
fn check_links(net: &Net, row: &Record, links: &[NamedVectors]) -> Result<(), FlowFails>
    requires given { IsGiven net.now row.now }
    requires named { All (IsNamed row.now.junctions) (links_in links.now) }
    requires names { NamesAreGood (grid_of net.now) (links_in links.now) }
    ensures good { OnOk result (IsFlowPart (grid_of net.now) (row_of row.now) (links_in links.now)) }
    ensures refused { IfErr result (IsRefusedPart (grid_of net.now) (row_of row.now) (links_in links.now)) }
{
    for i in 0..links.len() {
        check_link(net, row, &links[i])?;
    }
    Ok(())
}

/// Checks the part behind a record that is certified on the net's grid: refuses it by the first name whose link doesn't
/// join two junctions or was named before; where there is none, by the first vector that isn't what it has to be, links
/// in order, UPPER before LOWER. It takes no memory.
pub fn check_flows(net: &Net, row: &Record, part: &FlowPart) -> Result<(), FlowFails>
    requires given { IsGiven net.now row.now }
    requires named { All (IsNamed row.now.junctions) (part_of part.now) }
    ensures good { OnOk result (IsFlowPart (grid_of net.now) (row_of row.now) (part_of part.now)) }
    ensures refused { IfErr result (IsRefusedPart (grid_of net.now) (row_of row.now) (part_of part.now)) }
{
    let links = part.as_slice();
    match first_refused_name(net, links) {
        Some(link) => Err(FlowFails::Name { link }),
        None => check_links(net, row, links),
    }
}
