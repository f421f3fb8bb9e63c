//! What a net says of its nodes and links.
#![tactic(auto)]

ghost use Rattle.std.specs.Prelude.{◌≡◌, ◌<◌, ◌≤◌, ◌*◌, ◌^◌, ℤ, List, length, Some, slice_get, unsigned_abs, All};
ghost use Rattle.std.specs.Option.{option_map, option_copied, IfSome};
ghost use Rattle.hyd_net.specs.CountLimits.{most_links};
ghost use Rattle.hyd_net.specs.NumberRanges.{IsHead};
ghost use Rattle.hyd_spec.specs.Assignment.{head_at};
ghost use Rattle.hyd_spec.specs.Law.{Law};
ghost use Rattle.hyd_spec_certificates.specs.EnclosingFunctions.{demand_low, demand_high};
ghost use Rattle.hyd_spec_certificates.specs.PeriodNetwork.{all_heads, tank_side};
ghost use Rattle.hyd_spec_certificates.specs.Certificate.{box_limit};
ghost use Rattle.hyd_spec_certificates.specs.NetOutflow.{net, link_ends, margin};
ghost use Rattle.hyd_theorems_on_definitions.specs.SoundLawsAndGrids.{IsSteady, IsSoundCapacity};
ghost use Rattle.hyd_law.specs.LinkLaws.{IsSoundLink, LinkAccepts};
ghost use Rattle.hyd_law.specs.DemandLaws.{IsSoundOut, OutAccepts, out_low, out_high};
ghost use Rattle.hyd_period_network.specs.ExactLaw.{exact_law};
ghost use Rattle.hyd_period_network.specs.Demands.{demand_of_law};
ghost use Rattle.hyd_period_network.specs.LawsInSettings.{Stands};
ghost use Rattle.hyd_period_network.specs.NetAsPeriodNetwork.{grid_of, node_count, states_of, capacity_of};
ghost use Rattle.hyd_period_network.specs.SoundNets.{HasProblem, is_upper};
ghost use Rattle.hyd_period_network.specs.LinkEnds.{ties_from, ties_share, IsTie, HasEnds};

use crate::junctions_ends_and_settings::{Ends, Tie};
use crate::net::Net;
use hyd_law::{LinkLaw, OutLaw, Quad};
use hyd_net::LinkState;
use hyd_spec::MISSED_FLOW_TICKS;
use hyd_spec_certificates::{Problem, Side};

impl Net {
    /// The number of junctions.
    pub fn junctions(&self) -> u32
        ensures count { result ≡ length self.now.junctions }
        ensures each { length (grid_of self.now).junctions ≡ length self.now.junctions }
        ensures steady { IsSteady (grid_of self.now) }
    {
        self.junctions.len() as u32
    }

    /// The number of nodes: junctions, reservoirs and tanks together.
    pub fn nodes(&self) -> u32
        ensures count { result ≡ node_count self.now }
        ensures few { node_count self.now ≤ 2 ^ 31 }
    {
        (self.junctions.len() + self.reservoirs.len() + self.tanks.len()) as u32
    }

    /// The number of links.
    pub fn links(&self) -> u32
        ensures count { result ≡ length self.now.ends }
        ensures each { length (grid_of self.now).links ≡ length self.now.ends }
        ensures few { length self.now.ends ≤ most_links }
    {
        self.ends.len() as u32
    }

    /// The number of tanks.
    pub fn tanks(&self) -> u32
        ensures count { result ≡ length self.now.tanks }
        ensures each { length (grid_of self.now).tanks ≡ length self.now.tanks }
    {
        self.tanks.len() as u32
    }

    /// The two nodes of a link.
    pub fn ends(&self, link: u32) -> Ends
        requires { link < length self.now.ends }
        ensures value { slice_get self.now.ends link ≡ Some result }
        ensures nodes { HasEnds (node_count self.now) result }
        ensures grid { IfSome (slice_get (grid_of self.now).links link) (λ l. (l.from ≡ result.from)
            × (l.to ≡ result.to)) }
    {
        self.ends[link as usize]
    }

    /// A junction's elevation, in head ticks.
    pub fn elevation(&self, junction: u32) -> i64
        requires { junction < length self.now.junctions }
        ensures value { IfSome (slice_get (grid_of self.now).junctions junction) (λ j. result ≡ j.elevation) }
        ensures range { IsHead result }
    {
        self.junctions[junction as usize].elevation
    }

    /// The law of a junction's demand, by its head above the elevation.
    pub fn demand_law(&self, junction: u32) -> &OutLaw
        requires { junction < length self.now.junctions }
        ensures value { slice_get self.now.demands junction ≡ Some result.now }
        ensures grid { IfSome (slice_get (grid_of self.now).junctions junction)
            (λ j. j.demand ≡ demand_of_law result.now) }
        ensures sound { IsSoundOut result.now }
        ensures accepts { (p : ℤ) → unsigned_abs p ≤ 2 * box_limit → OutAccepts result.now p }
        ensures low { (p : ℤ) → out_low result.now p ≡ demand_low (demand_of_law result.now) p }
        ensures high { (p : ℤ) → out_high result.now p ≡ demand_high (demand_of_law result.now) p }
    {
        &self.demands[junction as usize]
    }

    /// The law of a junction's emitter, by its head above the elevation.
    pub fn emitter_law(&self, junction: u32) -> Option<&Quad>
        requires { junction < length self.now.junctions }
        ensures grid { IfSome (slice_get (grid_of self.now).junctions junction)
            (λ j. j.emitter ≡ option_map capacity_of (option_copied result)) }
        ensures sound { IfSome (option_copied result) (λ law. IsSoundCapacity (capacity_of law)) }
    {
        self.junctions[junction as usize].emitter.as_ref()
    }

    /// The state that a link is in.
    pub fn state(&self, link: u32) -> &LinkState
        requires { link < length self.now.ends }
        ensures { slice_get (states_of self.now) link ≡ Some result.now }
    {
        &self.settings[link as usize].state
    }

    /// The law of a link in its state, whatever the tanks at its ends allow.
    pub fn own_law(&self, link: u32) -> &LinkLaw
        requires { link < length self.now.ends }
        ensures value { slice_get self.now.own link ≡ Some result.now }
        ensures stands { Stands result.now (exact_law result.now) }
    {
        &self.laws[link as usize].own
    }

    /// The law of a link in its state, between tanks that may be full or empty.
    pub fn law(&self, link: u32) -> &LinkLaw
        requires { link < length self.now.ends }
        ensures value { slice_get self.now.laws link ≡ Some result.now }
        ensures stands { IfSome (slice_get (grid_of self.now).links link) (λ l. Stands result.now l.law) }
        ensures sound { IsSoundLink result.now }
        ensures accepts { (d : ℤ) → unsigned_abs d ≤ 2 * box_limit → LinkAccepts result.now d }
    {
        self.laws[link as usize].law()
    }

    /// The head of a node that is a reservoir or a tank, in head ticks, in a problem and on a side.
    pub fn fixed(&self, problem: Problem, side: Side, node: u32) -> i64
        requires fixed { length self.now.junctions ≤ node }
        requires in_range { node < node_count self.now }
        requires pinned { HasProblem self.now problem }
        ensures value { (u : List ℤ) → length u ≡ length self.now.junctions
            → result ≡ head_at (all_heads (grid_of self.now) problem side u) node }
        ensures small { unsigned_abs result ≤ box_limit }
    {
        let before = self.junctions.len();
        let number = node as usize - before;
        if number < self.reservoirs.len() {
            return self.reservoirs[number];
        }
        let tank = number - self.reservoirs.len();
        let heads = self.tanks[tank];
        if is_upper(problem, side, tank) {
            heads.hi
        } else {
            heads.lo
        }
    }

    /// The margin of a junction, in flow ticks: ten for each of its link ends, and thirty for its demand, its emitter
    /// and its balance.
    pub fn margin(&self, junction: u32) -> i64
        requires { junction < length self.now.junctions }
        ensures { result ≡ margin (grid_of self.now) junction }
    {
        (self.rows[junction as usize].len() as i64 + 3) * MISSED_FLOW_TICKS
    }

    /// The link ends at a node, in order of links.
    pub fn row(&self, node: u32) -> &[Tie]
        requires { node < node_count self.now }
        ensures row { result.now ≡ ties_from node 0 self.now.ends }
        ensures ties { All (IsTie (node_count self.now) (length self.now.ends)) result.now }
        ensures few { length result.now ≤ 40000 }
        ensures count { length result.now ≡ link_ends node (grid_of self.now).links }
        ensures sum { (out into : Law → ℤ → ℤ) (heads : List ℤ)
            → ties_share out into (grid_of self.now).links heads (head_at heads node) result.now
            ≡ net out into heads node (grid_of self.now).links }
    {
        self.rows[node as usize].as_slice()
    }
}

// Whether a tank stands at the upper end of its heads.
fn is_upper(problem: Problem, side: Side, tank: usize) -> bool
    ensures { result ≡ is_upper (tank_side problem side tank) }
{
    let pinned = match problem {
        Problem::Main => false,
        Problem::Pinned(number) => number as usize == tank,
    };
    match side {
        Side::Upper => !pinned,
        Side::Lower => pinned,
    }
}
