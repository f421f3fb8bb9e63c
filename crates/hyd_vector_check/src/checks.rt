//! Certificates decided.
#![tactic(auto)]

ghost use Rattle.std.specs.Prelude.{◌≡◌, ℕ, length, All, OnOk, IfErr, None, IfSome, IfNone};
ghost use Rattle.hyd_spec.specs.Lists.{Each};
ghost use Rattle.hyd_spec_certificates.specs.declared.Problem.TheVariants.{Main, Pinned};
ghost use Rattle.hyd_spec_certificates.specs.declared.Side.TheVariants.{Upper, Lower};
ghost use Rattle.hyd_spec_certificates.specs.Certificate.{IsInBox, Suits, FailsFirst, IsCertificate};
ghost use Rattle.hyd_period_network.specs.NetAsPeriodNetwork.{grid_of};
ghost use Rattle.hyd_period_network.specs.SoundNets.{HasProblem};
ghost use Rattle.hyd_vector_check.specs.NetOutflowBySide.{IsFirstOutside};
ghost use Rattle.hyd_vector_check.specs.ComparisonPrinciple.{LiesAbove, LiesBelow, LiesAbovePinned, LiesBelowPinned};
ghost use Rattle.hyd_vector_check.specs.ComparisonPrinciple.{LiesAboveLower};
ghost use Rattle.hyd_vector_check.specs.ComparisonPrinciple.{LiesBelowUpper};

use crate::heads::{head_of, is_in_box};
use crate::junction_test::passes;
use hyd_period_network::Net;
use hyd_spec_certificates::{Problem, Side};
use thiserror::Error;

/// A vector that isn't a certificate, and the junction at which it fails first: the first whose head lies outside the
/// box; where no head does, the first that doesn't pass.
#[derive(Debug, Clone, Copy, PartialEq, Eq, Drop, Error)]
#[error("not a certificate")]
pub struct Fails {
    /// Its number among the junctions, counted from 0.
    pub junction: u32,
}

// The first junction whose head lies outside the box.
fn first_outside(net: &Net, u: &[i64]) -> Option<u32>
    requires { length u.now ≡ length net.now.junctions }
    ensures some { IfSome result (λ i. IsFirstOutside u.now i) }
    ensures none { IfNone result (All IsInBox u.now) }
{
    for i in 0..net.junctions() {
        if !is_in_box(head_of(u, i)) {
            return Some(i);
        }
    }
    None
}

// The first junction that doesn't pass.
fn first_failing(net: &Net, problem: Problem, side: Side, u: &[i64]) -> Option<u32>
    requires one_each { length u.now ≡ length net.now.junctions }
    requires in_box { All IsInBox u.now }
    requires pinned { HasProblem net.now problem }
    ensures some { IfSome result (λ i. FailsFirst None (grid_of net.now) problem side u.now i) }
    ensures none { IfNone result (Each (grid_of net.now).junctions (Suits None (grid_of net.now) problem side u.now)) }
{
    for i in 0..net.junctions() {
        if !passes(net, problem, side, u, i) {
            return Some(i);
        }
    }
    None
}

/// Decides whether heads u, one for each junction, are a certificate of a problem and side (supersolutions and
/// subsolutions of Ortega and Rheinboldt 1970). Where they aren't, the answer names the junction at which they fail
/// first.
pub fn check(net: &Net, problem: Problem, side: Side, u: &[i64]) -> Result<(), Fails>
    requires one_each { length u.now ≡ length net.now.junctions }
    requires pinned { HasProblem net.now problem }
    ensures certificate { OnOk result (IsCertificate (grid_of net.now) problem side u.now) }
    ensures fails { IfErr result (λ e. FailsFirst None (grid_of net.now) problem side u.now e.junction) }
{
    let _junctions = net.junctions();
    if let Some(junction) = first_outside(net, u) {
        return Err(Fails { junction });
    }
    match first_failing(net, problem, side, u) {
        Some(junction) => Err(Fails { junction }),
        None => Ok(()),
    }
}

/// Decides whether heads u are an UPPER certificate: then they lie strictly above the heads of every assignment whose
/// tank levels lie in the net's intervals, for a pinned tank counted from its head, and above each LOWER certificate.
pub fn check_super(net: &Net, problem: Problem, u: &[i64]) -> Result<(), Fails>
    requires one_each { length u.now ≡ length net.now.junctions }
    requires pinned { HasProblem net.now problem }
    ensures certificate { OnOk result (IsCertificate (grid_of net.now) problem Upper u.now) }
    ensures fails { IfErr result (λ e. FailsFirst None (grid_of net.now) problem Upper u.now e.junction) }
    ensures above { problem ≡ Main → OnOk result (LiesAbove (grid_of net.now) u.now) }
    ensures above_pinned { (tank : ℕ) → problem ≡ Pinned tank
        → OnOk result (LiesAbovePinned (grid_of net.now) tank u.now) }
    ensures above_lower { OnOk result (LiesAboveLower (grid_of net.now) problem u.now) }
{
    let _junctions = net.junctions();
    check(net, problem, Side::Upper, u)
}

/// Decides whether heads u are a LOWER certificate: then they lie strictly below the heads of every assignment whose
/// tank levels lie in the net's intervals, for a pinned tank counted from its head, and below each UPPER certificate.
pub fn check_sub(net: &Net, problem: Problem, u: &[i64]) -> Result<(), Fails>
    requires one_each { length u.now ≡ length net.now.junctions }
    requires pinned { HasProblem net.now problem }
    ensures certificate { OnOk result (IsCertificate (grid_of net.now) problem Lower u.now) }
    ensures fails { IfErr result (λ e. FailsFirst None (grid_of net.now) problem Lower u.now e.junction) }
    ensures below { problem ≡ Main → OnOk result (LiesBelow (grid_of net.now) u.now) }
    ensures below_pinned { (tank : ℕ) → problem ≡ Pinned tank
        → OnOk result (LiesBelowPinned (grid_of net.now) tank u.now) }
    ensures below_upper { OnOk result (LiesBelowUpper (grid_of net.now) problem u.now) }
{
    let _junctions = net.junctions();
    check(net, problem, Side::Lower, u)
}
