//! How many junctions, links and tanks a network has.

ghost use Rattle.std.specs.Prelude.{◌≡◌};
ghost use Rattle.hyd_net.specs.Sound.{IsSound};
ghost use Rattle.hyd_spec_witnesses.specs.WitnessText.{counts_of};
ghost use Rattle.hyd_witness_texts.specs.MomentView.{counts_in};

use hyd_net::Project;
use hyd_witness_texts::NetworkCounts;

/// How many a network has.
pub fn counts_of(project: &Project) -> NetworkCounts
    requires { IsSound project.now }
    ensures { counts_in result ≡ counts_of project.now }
{
    NetworkCounts {
        junctions: project.junctions.len() as u32,
        links: project.links.len() as u32,
        tanks: project.tanks.len() as u32,
    }
}
