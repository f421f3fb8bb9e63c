//! The closing of a run for a spread, which gives its network back.
#![tactic(auto)]

ghost use Rattle.std.specs.Prelude.{◌≡◌};

use crate::spread_sim::SpreadSim;
use hyd_net::Project;
use hyd_open_certificates::OpenRow;
use hyd_open_period_end::OpenPeriodEnd;
use hyd_open_sim_start::Standing;
use hyd_period_facts::Facts;
use hyd_spread_networks::SpreadNets;
use hyd_spread_vectors::SpreadSearch;

// What a run holds is dropped in two steps: a function that drops much is slow to prove.
fn drop_vectors(_found: OpenRow, _search: SpreadSearch, _nets: SpreadNets) {}

fn drop_period(_standing: Standing, _facts: Facts, _close: OpenPeriodEnd) {}

impl SpreadSim {
    /// Closes the run and gives its network back. Dropping a run frees as much, but a function that does is proved
    /// with all that it drops, and one that calls this isn't.
    pub fn close(self) -> Project
        ensures project { result ≡ self.project }
    {
        drop_vectors(self.found, self.search, self.nets);
        drop_period(self.standing, self.facts, self.close);
        self.project
    }
}
