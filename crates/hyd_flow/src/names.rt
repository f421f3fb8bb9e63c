//! The names of a part.

ghost use Rattle.std.specs.Prelude.{◌≡◌, ℕ, ◌<◌, ◌↔◌, length, Some, slice_get, slice_index_or, IsTrue, IfSome, IfNone};
ghost use Rattle.hyd_cert.specs.FlowPartView.{links_in};
ghost use Rattle.hyd_period_network.specs.NetAsPeriodNetwork.{grid_of};
ghost use Rattle.hyd_spec_flows.specs.FlowParts.{JoinsJunctions, NameIsRefused, NamesAreGood, IsFirstRefusedName};
ghost use Rattle.hyd_spec_flows.specs.FlowParts.{names_of};

use hyd_cert::NamedVectors;
use hyd_period_network::Net;

/// Whether there is a link of this number, and it joins two junctions.
pub fn joins_junctions(net: &Net, link: u32) -> bool
    ensures { IsTrue result ↔ JoinsJunctions (grid_of net.now) link }
{
    let _junctions = net.junctions();
    if link >= net.links() {
        return false;
    }
    let ends = net.ends(link);
    ends.from < net.junctions() && ends.to < net.junctions()
}

/// Whether the link at a place stands at an earlier one too.
fn stands_before(links: &[NamedVectors], place: usize, link: u32) -> bool
    requires { place < length links.now }
    ensures { IsTrue result ↔ ((earlier : ℕ)
        × ((earlier < place) × (slice_get (names_of (links_in links.now)) earlier ≡ Some link))) }
{
    for i in 0..place {
        if links[i].link == link {
            return true;
        }
    }
    false
}

/// Whether the name at a place is refused.
fn is_refused(net: &Net, links: &[NamedVectors], place: usize, link: u32) -> bool
    requires { place < length links.now }
    ensures { IsTrue result ↔ NameIsRefused (grid_of net.now) (links_in links.now) place link }
{
    !joins_junctions(net, link) || stands_before(links, place, link)
}

/// The first name that is refused.
pub(crate) fn first_refused_name(net: &Net, links: &[NamedVectors]) -> Option<u32>
    ensures some { IfSome result (IsFirstRefusedName (grid_of net.now) (links_in links.now)) }
    ensures none { IfNone result (NamesAreGood (grid_of net.now) (links_in links.now)) }
{
    for i in 0..links.len() {
        let link = links[i].link;
        if is_refused(net, links, i, link) {
            return Some(link);
        }
    }
    None
}
