//! The search for vectors in which a link's first node is held.

ghost use Rattle.std.specs.Prelude.{◌≡◌, ◌+◌, ◌<◌, ◌≤◌, length, All, take, drop, slice_set, Some, slice_get};
ghost use Rattle.std.specs.Prelude.{IsTrue, false};
ghost use Rattle.hyd_spec_certificates.specs.BoxesWithHeldJunction.{held_in};
ghost use Rattle.hyd_spec_certificates.specs.Certificate.{IsTightHolding};
ghost use Rattle.hyd_spec_certificates.specs.PeriodNetwork.{opposite};
ghost use Rattle.hyd_spec_certificates.specs.RecordAndStanding.{vector_of};
ghost use Rattle.hyd_spec_certificates.specs.declared.Problem.TheVariants.{Main};
ghost use Rattle.hyd_spent_rounds.specs.SpentRounds.{AreSpent};
ghost use Rattle.hyd_cert.specs.FlowPartView.{named_of, links_in, part_of};
ghost use Rattle.hyd_cert.specs.declared.named_vectors.NamedVectors.{NamedVectors};
ghost use Rattle.hyd_cert.specs.RecordView.{row_of};
ghost use Rattle.hyd_period_network.specs.NetAsPeriodNetwork.{grid_of};
ghost use Rattle.hyd_spec_certificates.specs.PeriodNetwork.{GridLink};
ghost use Rattle.hyd_spec_certificates.specs.RecordAndStanding.{vector_on};
ghost use Rattle.hyd_spec_certificates.specs.declared.Side.{Side};
ghost use Rattle.hyd_spec_certificates.specs.declared.Side.TheVariants.{Upper, Lower};
ghost use Rattle.hyd_spec_flows.specs.FlowParts.{JoinsJunctions, HasItsVector, IsHeldVector, IsSharpVector};
ghost use Rattle.hyd_spec_flows.specs.FlowParts.{IsSharpPart};
ghost use Rattle.hyd_spec_flows.specs.FlowParts.{names_of};
ghost use Rattle.hyd_flow.specs.GivenRecords.{IsGiven};

use crate::flow_search::FlowSearch;
use crate::held_nodes::{held_for, opposite};
use crate::near_vectors::finds_near;
use hyd_cert::{FlowPart, NamedVectors, Record};
use hyd_period_network::Net;
use hyd_spec_certificates::{HeldJunction, Problem, Side};
use hyd_sweep::{Sweeper, Swept};

/// Puts a vector with the held junction at its head.
fn draw(own: &[i64], held: &HeldJunction, heads: &mut [i64])
    requires one_each { length heads.old ≡ length own.now }
    requires inside { held.now.junction < length own.now }
    ensures { heads.new ≡ slice_set own.now held.now.junction held.now.head }
{
    heads.copy_from_slice(own);
    heads[held.junction as usize] = held.head;
}

/// Sweeps from the record's vector of the other side to the nearest vector with a junction held, by at most so many
/// rounds of raises with leaps, and tells whether it came there.
fn sweeps_to_least(
    net: &Net,
    row: &Record,
    from: u32,
    side: Side,
    rounds: u32,
    held: HeldJunction,
    sweeper: &mut Sweeper,
    heads: &mut [i64],
) -> bool
    requires given { IsGiven net.now row.now }
    requires inside { from < length net.now.junctions }
    requires held { held ≡ held_in (vector_of (row_of row.now) Main (opposite side)) from }
    requires one_each { length heads.old ≡ length net.now.junctions }
    requires room { sweeper.old ≡ length heads.old }
    ensures tight { IsTrue result → IsTightHolding (Some held) (grid_of net.now) Main side heads.new }
    ensures spent { result ≡ false
        → AreSpent held (grid_of net.now) side rounds (vector_of (row_of row.now) Main (opposite side)) }
    ensures each { length heads.new ≡ length heads.old }
    ensures room { sweeper.new ≡ sweeper.old }
{
    let _junctions = net.junctions();
    heads.copy_from_slice(row.vector(Problem::Main, opposite(side)));
    match sweeper.tighten(net, Problem::Main, side, Some(held), heads, rounds) {
        Swept::Least => true,
        Swept::NoCertificate { .. } => false,
        Swept::RoundsSpent => false,
    }
}

/// Finds the nearest vector of a side with a junction held, and tells whether it came there: it doesn't where so many
/// rounds lead to none, and where that is shown by itself makes none.
fn finds_least(
    net: &Net,
    row: &Record,
    from: u32,
    side: Side,
    rounds: u32,
    held: HeldJunction,
    search: &mut FlowSearch,
    heads: &mut [i64],
) -> bool
    requires given { IsGiven net.now row.now }
    requires inside { from < length net.now.junctions }
    requires held { held ≡ held_in (vector_of (row_of row.now) Main (opposite side)) from }
    requires one_each { length heads.old ≡ length net.now.junctions }
    requires room { search.old ≡ length heads.old }
    ensures tight { IsTrue result → IsTightHolding (Some held) (grid_of net.now) Main side heads.new }
    ensures spent { result ≡ false
        → AreSpent held (grid_of net.now) side rounds (vector_of (row_of row.now) Main (opposite side)) }
    ensures each { length heads.new ≡ length heads.old }
    ensures room { search.new ≡ search.old }
{
    let _junctions = net.junctions();
    let start = row.vector(Problem::Main, opposite(side));
    if search.finds_spent(net, side, held, start, rounds, heads) {
        return false;
    }
    sweeps_to_least(
        net,
        row,
        from,
        side,
        rounds,
        held,
        &mut search.sweeper,
        heads,
    )
}

/// Puts a vector with a junction held where the rounds are spent: a near one that serves, or else the record's own with
/// that junction at its head.
fn put_spent(
    net: &Net,
    row: &Record,
    from: u32,
    side: Side,
    rounds: u32,
    held: HeldJunction,
    search: &mut FlowSearch,
    heads: &mut [i64],
)
    requires given { IsGiven net.now row.now }
    requires inside { from < length net.now.junctions }
    requires held { held ≡ held_in (vector_of (row_of row.now) Main (opposite side)) from }
    requires spent { AreSpent held (grid_of net.now) side rounds (vector_of (row_of row.now) Main (opposite side)) }
    requires one_each { length heads.old ≡ length net.now.junctions }
    requires room { search.old ≡ length heads.old }
    ensures held { (link : GridLink) → link.from ≡ from
        → IsHeldVector (grid_of net.now) (row_of row.now) link side heads.new }
    ensures near { (link : GridLink) → link.from ≡ from
        → IsSharpVector rounds (grid_of net.now) (row_of row.now) link side heads.new }
    ensures each { length heads.new ≡ length heads.old }
    ensures room { search.new ≡ search.old }
{
    let _junctions = net.junctions();
    let own = row.vector(Problem::Main, side);
    if finds_near(net, side, &held, own, search, heads) {
        return;
    }
    draw(own, &held, heads);
}

/// Finds the vector of a side in which a junction is held: the nearest one, where so many rounds from the record's
/// vector of the other side lead to one; where they are spent, a near one.
fn find_vector(
    net: &Net,
    row: &Record,
    from: u32,
    side: Side,
    rounds: u32,
    search: &mut FlowSearch,
    heads: &mut [i64],
)
    requires given { IsGiven net.now row.now }
    requires inside { from < length net.now.junctions }
    requires one_each { length heads.old ≡ length net.now.junctions }
    requires room { search.old ≡ length heads.old }
    ensures held { (link : GridLink) → link.from ≡ from
        → IsHeldVector (grid_of net.now) (row_of row.now) link side heads.new }
    ensures near { (link : GridLink) → link.from ≡ from
        → IsSharpVector rounds (grid_of net.now) (row_of row.now) link side heads.new }
    ensures each { length heads.new ≡ length heads.old }
    ensures room { search.new ≡ search.old }
{
    let _junctions = net.junctions();
    let held = held_for(row, from, side);
    if finds_least(net, row, from, side, rounds, held, search, heads) {
        return;
    }
    put_spent(net, row, from, side, rounds, held, search, heads);
}

/// Finds both vectors in which a junction is held, the UPPER one and the LOWER one behind it.
fn find_both(
    net: &Net,
    row: &Record,
    from: u32,
    rounds: u32,
    search: &mut FlowSearch,
    heads: &mut [i64],
)
    requires given { IsGiven net.now row.now }
    requires inside { from < length net.now.junctions }
    requires two_each { length heads.old ≡ row.now.junctions + row.now.junctions }
    requires room { search.old ≡ row.now.junctions }
    ensures upper { (link : GridLink) → link.from ≡ from → IsHeldVector (grid_of net.now) (row_of row.now) link Upper
        (take row.now.junctions heads.new) }
    ensures lower { (link : GridLink) → link.from ≡ from → IsHeldVector (grid_of net.now) (row_of row.now) link Lower
        (drop row.now.junctions heads.new) }
    ensures near_upper { (link : GridLink) → link.from ≡ from
        → IsSharpVector rounds (grid_of net.now) (row_of row.now) link Upper (take row.now.junctions heads.new) }
    ensures near_lower { (link : GridLink) → link.from ≡ from
        → IsSharpVector rounds (grid_of net.now) (row_of row.now) link Lower (drop row.now.junctions heads.new) }
    ensures each { length heads.new ≡ length heads.old }
    ensures room { search.new ≡ search.old }
{
    let _junctions = net.junctions();
    let (upper, lower) = heads.split_at_mut(row.junctions as usize);
    find_vector(net, row, from, Side::Upper, rounds, search, upper);
    find_vector(net, row, from, Side::Lower, rounds, search, lower);
}

/// Finds both vectors of a link.
fn find_vectors(
    net: &Net,
    row: &Record,
    rounds: u32,
    search: &mut FlowSearch,
    named: &mut NamedVectors,
)
    requires given { IsGiven net.now row.now }
    requires junctions { named.old.junctions ≡ row.now.junctions }
    requires joins { JoinsJunctions (grid_of net.now) named.old.link }
    requires room { search.old ≡ row.now.junctions }
    ensures vectors { (side : Side) → HasItsVector (grid_of net.now) (row_of row.now) (named_of named.new) side }
    ensures near { (link : GridLink) (side : Side) → slice_get (grid_of net.now).links named.old.link ≡ Some link
        → IsSharpVector rounds (grid_of net.now) (row_of row.now) link side
        (vector_on side (named_of named.new).held) }
    ensures link { named.new.link ≡ named.old.link }
    ensures junctions { named.new.junctions ≡ named.old.junctions }
    ensures room { search.new ≡ search.old }
{
    let _junctions = net.junctions();
    let _links = net.links();
    let from = net.ends(named.link).from;
    find_both(net, row, from, rounds, search, named.heads.as_mut_slice());
}

/// Finds the vectors of so many links.
fn find_each(
    net: &Net,
    row: &Record,
    rounds: u32,
    search: &mut FlowSearch,
    count: usize,
    links: &mut [NamedVectors],
)
    requires given { IsGiven net.now row.now }
    requires within { count ≤ length links.old }
    requires junctions { All (λ (one : NamedVectors). one.junctions ≡ row.now.junctions) links.old }
    requires joins { All (λ named. JoinsJunctions (grid_of net.now) named.link) (links_in (take count links.old)) }
    requires room { search.old ≡ row.now.junctions }
    ensures vectors { All (λ named. (side : Side) → HasItsVector (grid_of net.now) (row_of row.now) named side)
        (links_in (take count links.new)) }
    ensures near { IsSharpPart rounds (grid_of net.now) (row_of row.now) (links_in (take count links.new)) }
    ensures names { names_of (links_in (take count links.new)) ≡ names_of (links_in (take count links.old)) }
    ensures junctions { All (λ (one : NamedVectors). one.junctions ≡ row.now.junctions) links.new }
    ensures room { search.new ≡ search.old }
{
    for i in 0..count {
        find_vectors(net, row, rounds, search, &mut links[i]);
    }
}

/// Finds the vectors of the links that the part names, each of which joins two junctions: the nearest ones, where so
/// many rounds lead to them, and near ones where these are spent. It takes no memory.
pub fn find(net: &Net, row: &Record, rounds: u32, search: &mut FlowSearch, part: &mut FlowPart)
    requires given { IsGiven net.now row.now }
    requires junctions { part.old.junctions ≡ row.now.junctions }
    requires joins { All (λ named. JoinsJunctions (grid_of net.now) named.link) (part_of part.old) }
    requires room { search.old ≡ row.now.junctions }
    ensures vectors { All (λ named. (side : Side) → HasItsVector (grid_of net.now) (row_of row.now) named side)
        (part_of part.new) }
    ensures near { IsSharpPart rounds (grid_of net.now) (row_of row.now) (part_of part.new) }
    ensures names { names_of (part_of part.new) ≡ names_of (part_of part.old) }
    ensures junctions { part.new.junctions ≡ part.old.junctions }
    ensures room { search.new ≡ search.old }
{
    search.begin(net, row);
    let count = part.count;
    find_each(net, row, rounds, search, count, part.named.as_mut_slice());
}
