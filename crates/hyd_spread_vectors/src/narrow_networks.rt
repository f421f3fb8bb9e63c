//! Whether the vectors of each network are close.
#![tactic(auto)]

ghost use Rattle.std.specs.Prelude.{◌≡◌, map, true, false};
ghost use Rattle.hyd_spec_certificates.specs.SpansAsIntervals.{levels_of};
ghost use Rattle.hyd_cert.specs.RecordView.{row_of};
ghost use Rattle.hyd_spec_spread_promises.specs.SharpOverSpreads.{AreClose};
ghost use Rattle.hyd_spread_vectors.specs.NarrowForSpreads.{HoldsClose};

use crate::spread_search::SpreadSearch;
use hyd_cert::Record;
use hyd_open_sim_start::are_close;
use hyd_spec_certificates::{LevelSpan, Problem, Side};

// Whether the vectors of one network are.
fn is_close(held: &Record, levels: &[LevelSpan], width: i64) -> bool
    ensures close { result ≡ true → AreClose width (map levels_of levels.now) (row_of held.now).main.upper
        (row_of held.now).main.lower }
    ensures wide { result ≡ false → AreClose width (map levels_of levels.now) (row_of held.now).main.upper
        (row_of held.now).main.lower → ⊥ }
{
    let upper = held.vector(Problem::Main, Side::Upper);
    let lower = held.vector(Problem::Main, Side::Lower);
    are_close(upper, lower, levels, width)
}

impl SpreadSearch {
    /// Whether what was found last is narrow for a width, in head ticks: whether on each network, with all tanks alike,
    /// no head of the UPPER vector lies farther above that of the LOWER one than the width and the widest of the level
    /// intervals at the start.
    pub fn is_narrow(&self, levels: &[LevelSpan], width: i64) -> bool
        ensures narrow { result ≡ true → HoldsClose width (map levels_of levels.now) self.now.held }
        ensures wide { result ≡ false → HoldsClose width (map levels_of levels.now) self.now.held → ⊥ }
    {
        is_close(&self.above, levels, width) && is_close(&self.below, levels, width)
    }
}
