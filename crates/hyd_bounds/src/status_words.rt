//! Status words of links.
#![tactic(auto)]

ghost use Rattle.std.specs.Prelude.{◌≡◌, ◌<◌, ◌*◌, ◌+ℤ◌, Bool, List, ℤ, Some, slice_get, length};
ghost use Rattle.hyd_net.specs.ListView.{ListView};
ghost use Rattle.hyd_net.specs.LinkStates.{CanHave};
ghost use Rattle.hyd_net.specs.declared.curves.HeadPoint.{HeadPoint};
ghost use Rattle.hyd_spec.specs.ProgramTypes.{LinkKind, LinkState};
ghost use Rattle.hyd_spec.specs.LinkLaw.{own_law};
ghost use Rattle.hyd_spec.specs.DemandsHeadsAndPumpLifts.{lift_of};
ghost use Rattle.hyd_spec.specs.Law.{Law as ExactLaw};
ghost use Rattle.hyd_spec_certificates.specs.declared.Problem.TheVariants.{Main};
ghost use Rattle.hyd_spec_certificates.specs.declared.Side.TheVariants.{Upper, Lower};
ghost use Rattle.hyd_spec_certificates.specs.PeriodNetwork.{GridLink, all_heads};
ghost use Rattle.hyd_spec_certificates.specs.FlowIntervals.{difference};
ghost use Rattle.hyd_spec_certificates.specs.StatusesOfLinks.{by_drive, by_setting, status_of};
ghost use Rattle.hyd_period_network.specs.ExactLaw.{exact_law, one_way_law};
ghost use Rattle.hyd_period_network.specs.NetAsPeriodNetwork.{grid_of, states_of, own_laws};
ghost use Rattle.hyd_law.specs.KnotsOfStraightLines.{IsCurve};
ghost use Rattle.hyd_law.specs.ComposedLaws.{IsDifference, IsLift};
ghost use Rattle.hyd_law.specs.LinkLaws.{IsSoundLink, LinkAccepts};
ghost use Rattle.hyd_law.specs.declared.link_law_kinds.LinkLaw.TheVariants.{Pump, Bent as BentLaw};
ghost use Rattle.hyd_bounds.specs.VectorsInOrder.{IsVector};
ghost use Rattle.hyd_bounds.specs.FlowsAndStatusesOfAssignments.{HoldsStatus};
ghost use Rattle.hyd_bounds.specs.StatusWords.{open_word, running_word, limited_word, word_of};

use crate::heads::node_head;
use hyd_law::{Bent, Held, Law, Lifted, LinkLaw, OneWay, Quad};
use hyd_net::LinkState;
use hyd_period_network::Net;
use hyd_spec_certificates::{Problem, Side, StatusWord};
use hyd_vector_check::difference;

// The word of a link that passes where its driving difference is above 0.
fn by_drive(least: i128, greatest: i128) -> StatusWord
    ensures { result ≡ by_drive (record { lo = least; hi = greatest }) }
{
    if least > 0 {
        return StatusWord::Open;
    }
    if greatest <= 0 {
        return StatusWord::Closed;
    }
    StatusWord::Unsure
}

// The word of a flow control valve with a setting, by what its open valve passes.
fn by_setting(setting: i64, least: i128, greatest: i128) -> StatusWord
    ensures { result ≡ by_setting setting (record { lo = least; hi = greatest }) }
{
    if least >= i128::from(setting) {
        return StatusWord::Active;
    }
    if greatest < i128::from(setting) {
        return StatusWord::Open;
    }
    StatusWord::Unsure
}

// The word of an open link, where it passes forward only, or in reverse only.
fn one_way_word(forward: bool, least: i64, greatest: i64) -> StatusWord
    ensures { (law : ExactLaw) → result ≡ open_word (one_way_law forward law) (record { lo = least; hi = greatest }) }
{
    if forward {
        return by_drive(i128::from(least), i128::from(greatest));
    }
    StatusWord::Open
}

// The word of an open link, between two head differences.
fn open(law: &LinkLaw, least: i64, greatest: i64) -> StatusWord
    ensures { result ≡ open_word (exact_law law.now) (record { lo = least; hi = greatest }) }
{
    match law {
        LinkLaw::QuadOneWay(law) => one_way_word(law.forward, least, greatest),
        LinkLaw::LinearOneWay(law) => one_way_word(law.forward, least, greatest),
        LinkLaw::Pump(law) => one_way_word(law.forward, least, greatest),
        LinkLaw::LimitOneWay(law) => one_way_word(law.forward, least, greatest),
        LinkLaw::LinearLimitOneWay(law) => one_way_word(law.forward, least, greatest),
        LinkLaw::PowerOneWay(law) => one_way_word(law.forward, least, greatest),
        _ => StatusWord::Open,
    }
}

// The word of a pump with a capacity that runs.
fn lifted(pump: &OneWay<Lifted<Quad>>, least: i64, greatest: i64) -> StatusWord
    requires lift { IsLift (lift_of pump.now.inner.us pump.now.inner.head pump.now.inner.speed) pump.now.inner.lift }
    requires least { IsDifference (least +ℤ pump.now.inner.lift.lo) }
    requires greatest { IsDifference (greatest +ℤ pump.now.inner.lift.hi) }
    ensures { result ≡ running_word (exact_law (Pump pump.now)) (record { lo = least; hi = greatest }) }
{
    if !pump.forward {
        return StatusWord::Unsure;
    }
    by_drive(
        i128::from(least) + pump.inner.lift.lo,
        i128::from(greatest) + pump.inner.lift.hi,
    )
}

// The word of a pump with a curve by straight lines.
fn bent(held: &Held<Bent>, least: i64, greatest: i64) -> StatusWord
    requires curve { IsCurve held.now.inner.knots.list }
    requires least { IsDifference least }
    requires greatest { IsDifference greatest }
    ensures { result ≡ running_word (exact_law (BentLaw held.now)) (record { lo = least; hi = greatest }) }
{
    if held.least == 0 && held.most == 0 {
        return StatusWord::Unsure;
    }
    by_drive(held.inner.high(least), held.inner.high(greatest))
}

// The word of a running pump, between two head differences.
fn running(law: &LinkLaw, least: i64, greatest: i64) -> StatusWord
    requires sound { IsSoundLink law.now }
    requires least { LinkAccepts law.now least }
    requires greatest { LinkAccepts law.now greatest }
    ensures { result ≡ running_word (exact_law law.now) (record { lo = least; hi = greatest }) }
{
    match law {
        LinkLaw::Pump(pump) => lifted(pump, least, greatest),
        LinkLaw::Bent(held) => bent(held, least, greatest),
        _ => StatusWord::Unsure,
    }
}

// The word of a valve that limits the flow, between two head differences.
fn limited(law: &LinkLaw, ticks: i64, least: i64, greatest: i64) -> StatusWord
    requires sound { IsSoundLink law.now }
    requires least { LinkAccepts law.now least }
    requires greatest { LinkAccepts law.now greatest }
    ensures { result ≡ limited_word ticks (exact_law law.now) (record { lo = least; hi = greatest }) }
{
    match law {
        LinkLaw::Limit(law) => by_setting(ticks, law.inner.low(least), law.inner.high(greatest)),
        LinkLaw::LinearLimit(law) => {
            by_setting(ticks, law.inner.low(least), law.inner.high(greatest))
        }
        _ => StatusWord::Unsure,
    }
}

/// The status word of a link in its state, with its own law, between two head differences, in head ticks.
pub fn word_of(state: &LinkState, law: &LinkLaw, least: i64, greatest: i64) -> StatusWord
    requires sound { IsSoundLink law.now }
    requires least { LinkAccepts law.now least }
    requires greatest { LinkAccepts law.now greatest }
    ensures { result ≡ word_of state.now (exact_law law.now) (record { lo = least; hi = greatest }) }
{
    match state {
        LinkState::Open => open(law, least, greatest),
        LinkState::Closed => StatusWord::Closed,
        LinkState::Speed(_) => running(law, least, greatest),
        LinkState::Throttle { .. } => StatusWord::Active,
        LinkState::Limit { ticks, .. } => limited(law, *ticks, least, greatest),
    }
}

/// The status of a link as the report prints it, by its state, its own law and the interval of its head difference
/// (EPANET 2.2 User Manual, status of links): OPEN or CLOSED where that is so for each difference in it, ACTIVE of a
/// valve that holds its setting, else UNSURE. `low` and `high` are heads of the junctions below and above those of
/// every assignment, as a LOWER and an UPPER certificate of `Problem::Main`: of such the word holds of the link in
/// every assignment, at every scale.
pub fn status_of(net: &Net, link: u32, low: &[i64], high: &[i64]) -> StatusWord
    requires in_range { link < length net.now.ends }
    requires low { IsVector net.now low.now }
    requires high { IsVector net.now high.now }
    ensures word { (us : Bool) (bends : List (ListView HeadPoint)) (kind : LinkKind) (state : LinkState)
        (place : GridLink) → CanHave kind state → slice_get (states_of net.now) link ≡ Some state
        → slice_get (own_laws net.now) link ≡ Some (own_law us bends kind state)
        → slice_get (grid_of net.now).links link ≡ Some place → result ≡ status_of us bends kind state
        (difference place (all_heads (grid_of net.now) Main Lower low.now)
        (all_heads (grid_of net.now) Main Upper high.now)) }
    ensures holds { (us : Bool) (bends : List (ListView HeadPoint)) (kind : LinkKind) (state : LinkState)
        (place : GridLink) → CanHave kind state → slice_get (states_of net.now) link ≡ Some state
        → slice_get (own_laws net.now) link ≡ Some (own_law us bends kind state)
        → slice_get (grid_of net.now).links link ≡ Some place
        → HoldsStatus (grid_of net.now) low.now high.now us bends kind state place result }
{
    let _links = net.links();
    let ends = net.ends(link);
    let least = difference(
        node_head(net, Problem::Main, Side::Lower, low, ends.from),
        node_head(net, Problem::Main, Side::Upper, high, ends.to),
    );
    let greatest = difference(
        node_head(net, Problem::Main, Side::Upper, high, ends.from),
        node_head(net, Problem::Main, Side::Lower, low, ends.to),
    );
    word_of(net.state(link), net.own_law(link), least, greatest)
}
