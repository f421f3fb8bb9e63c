//! The heads of junctions and of reservoirs that rules look at.
#![tactic(auto)]

ghost use Rattle.std.specs.Prelude.{◌≡◌, ◌<◌, ◌≤◌, ◌+◌, ◌++◌, ◌∷◌, [], length};
ghost use Rattle.hyd_bounds.specs.VectorsInOrder.{IsVector};
ghost use Rattle.hyd_spread_bounds.specs.BothSides.{pair_of, IsOrderedPair};

use hyd_net::List;
use hyd_period_network::Net;
use hyd_spread_bounds::head_span;

// Appends a head, for which there is room.
fn add_head(heads: &mut List<i64>, head: i64)
    requires { 0 < heads.old.spare }
    ensures list { heads.new.list ≡ heads.old.list ++ head ∷ [] }
    ensures spare { heads.old.spare ≤ heads.new.spare + 1 }
{
    heads.push(head).unwrap();
}

/// Puts heads of junctions and then those of reservoirs, in head ticks: from below those of the LOWER net, from above
/// those of the UPPER one. What the lists held before goes. They have room for them, so no memory is taken.
pub(crate) fn put_heads(
    upper: &Net,
    lower: &Net,
    low: &[i64],
    high: &[i64],
    lows: &mut List<i64>,
    highs: &mut List<i64>,
)
    requires pair { IsOrderedPair (pair_of upper.now lower.now) }
    requires low { IsVector lower.now low.now }
    requires high { IsVector upper.now high.now }
    requires low_room { length low.now + length lower.now.reservoirs ≤ length lows.old.list + lows.old.spare }
    requires high_room { length high.now + length upper.now.reservoirs ≤ length highs.old.list + highs.old.spare }
    ensures lows { lows.new.list ≡ low.now ++ lower.now.reservoirs }
    ensures highs { highs.new.list ≡ high.now ++ upper.now.reservoirs }
    ensures low_room { length lows.old.list + lows.old.spare ≤ length lows.new.list + lows.new.spare }
    ensures high_room { length highs.old.list + highs.old.spare ≤ length highs.new.list + highs.new.spare }
{
    let _above = upper.junctions();
    let _below = lower.junctions();
    lows.clear();
    highs.clear();
    let count = upper.nodes() - upper.tanks();
    for node in 0..count {
        let span = head_span(upper, lower, node, low, high);
        add_head(lows, span.lo);
        add_head(highs, span.hi);
    }
}
