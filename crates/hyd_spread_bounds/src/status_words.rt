//! Status words of links.
#![tactic(auto)]

ghost use Rattle.std.specs.Prelude.{◌≡◌, ◌<◌, Bool, List, Some, slice_get, length};
ghost use Rattle.hyd_net.specs.ListView.{ListView};
ghost use Rattle.hyd_net.specs.LinkStates.{CanHave};
ghost use Rattle.hyd_net.specs.declared.curves.HeadPoint.{HeadPoint};
ghost use Rattle.hyd_spec.specs.ProgramTypes.{LinkKind, LinkState};
ghost use Rattle.hyd_spec.specs.LinkLaw.{own_law};
ghost use Rattle.hyd_spec_certificates.specs.declared.Problem.TheVariants.{Main};
ghost use Rattle.hyd_spec_certificates.specs.PeriodNetwork.{GridLink};
ghost use Rattle.hyd_spec_certificates.specs.FlowIntervals.{difference};
ghost use Rattle.hyd_spec_certificates.specs.StatusesOfLinks.{status_of};
ghost use Rattle.hyd_spec_spread_runs.specs.OutermostPairs.{spanned};
ghost use Rattle.hyd_period_network.specs.NetAsPeriodNetwork.{states_of, own_laws};
ghost use Rattle.hyd_bounds.specs.VectorsInOrder.{IsVector};
ghost use Rattle.hyd_spread_bounds.specs.BothSides.{pair_of, IsOrderedPair, all_below, all_above};

use crate::flows::difference_span;
use hyd_bounds::word_of;
use hyd_period_network::Net;
use hyd_spec_certificates::StatusWord;

/// The status of a link by its state, its own law and the interval of its head difference on both nets, in which links
/// are in the same states: OPEN or CLOSED where that is so for each difference in it, ACTIVE of a valve that holds its
/// setting, else UNSURE. `low` and `high` are heads of the junctions below and above those of every assignment, as a
/// LOWER certificate on the LOWER net and an UPPER one on the UPPER net, of `Problem::Main`.
pub fn status_of(upper: &Net, lower: &Net, link: u32, low: &[i64], high: &[i64]) -> StatusWord
    requires pair { IsOrderedPair (pair_of upper.now lower.now) }
    requires in_range { link < length upper.now.ends }
    requires low { IsVector lower.now low.now }
    requires high { IsVector upper.now high.now }
    ensures { (us : Bool) (bends : List (ListView HeadPoint)) (kind : LinkKind) (state : LinkState) (place : GridLink)
        → CanHave kind state → slice_get (states_of upper.now) link ≡ Some state
        → slice_get (own_laws upper.now) link ≡ Some (own_law us bends kind state)
        → slice_get (spanned (pair_of upper.now lower.now)).links link ≡ Some place
        → result ≡ status_of us bends kind state (difference place
        (all_below (pair_of upper.now lower.now) Main low.now)
        (all_above (pair_of upper.now lower.now) Main high.now)) }
{
    let _links = upper.links();
    let span = difference_span(upper, lower, link, low, high);
    word_of(upper.state(link), upper.own_law(link), span.lo, span.hi)
}
