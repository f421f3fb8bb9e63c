//! The vectors of the named links in a period that was done.

ghost use Rattle.std.specs.Prelude.{◌≡◌};
ghost use Rattle.hyd_cert.specs.FlowPartView.{part_of};
ghost use Rattle.hyd_cert.specs.RecordView.{row_of};
ghost use Rattle.hyd_period_network.specs.NetAsPeriodNetwork.{grid_of};
ghost use Rattle.hyd_sim.specs.RunView.{SimView};
ghost use Rattle.hyd_sim.specs.Steps.{IsPeriod};
ghost use Rattle.hyd_spec.specs.NodeNumbers.{junction_count};
ghost use Rattle.hyd_spec_flows.specs.FlowParts.{IsFlowPart, IsSharpPart, names_of};
ghost use Rattle.hyd_spec_named_links.specs.NamedLinks.{MayBeNamed};

use hyd_cert::FlowPart;
use hyd_flow::{FlowSearch, find};
use hyd_sim::Sim;

/// Finds the vectors of the links that the part names, by the rounds that the run was asked for.
pub(crate) fn find_vectors(sim: &Sim, search: &mut FlowSearch, part: &mut FlowPart)
    requires period { (before : SimView) × IsPeriod before sim.now }
    requires named { MayBeNamed sim.now.project (names_of (part_of part.old)) }
    requires junctions { part.old.junctions ≡ junction_count sim.now.project }
    requires room { search.old ≡ junction_count sim.now.project }
    ensures part { IsFlowPart (grid_of sim.now.net) (row_of sim.now.row) (part_of part.new) }
    ensures near { IsSharpPart sim.now.settings.rounds (grid_of sim.now.net) (row_of sim.now.row)
        (part_of part.new) }
    ensures names { names_of (part_of part.new) ≡ names_of (part_of part.old) }
    ensures junctions { part.new.junctions ≡ part.old.junctions }
    ensures room { search.new ≡ search.old }
{
    let _project = sim.project();
    let net = sim.net();
    let _junctions = net.junctions();
    find(net, sim.row(), sim.rounds(), search, part);
}
