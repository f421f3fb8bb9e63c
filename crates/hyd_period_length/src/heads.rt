//! The heads of junctions and of reservoirs that rules look at.
#![tactic(auto)]

ghost use Rattle.std.specs.Prelude.{◌≡◌, ◌<◌, ◌≤◌, ◌+◌, ◌++◌, ◌∷◌, [], Some, length, slice_get};

use hyd_net::List;
use hyd_period_network::Net;
use hyd_spec_certificates::{Problem, Side};

// The head of a reservoir in head ticks, the same in all problems and on both sides.
fn reservoir_head(net: &Net, reservoir: u32) -> i64
    requires { reservoir < length net.now.reservoirs }
    ensures { slice_get net.now.reservoirs reservoir ≡ Some result }
{
    let _nodes = net.nodes();
    net.fixed(Problem::Main, Side::Lower, net.junctions() + reservoir)
}

// Appends a head, for which there is room.
fn add_head(heads: &mut List<i64>, head: i64)
    requires { 0 < heads.old.spare }
    ensures list { heads.new.list ≡ heads.old.list ++ head ∷ [] }
    ensures spare { heads.old.spare ≤ heads.new.spare + 1 }
{
    heads.push(head).unwrap();
}

// Puts the heads of junctions. What the list held before goes.
fn put_junctions(junctions: &[i64], heads: &mut List<i64>)
    requires { length junctions.now ≤ length heads.old.list + heads.old.spare }
    ensures list { heads.new.list ≡ junctions.now }
    ensures room { length heads.old.list + heads.old.spare ≤ length heads.new.list + heads.new.spare }
{
    heads.clear();
    for junction in 0..junctions.len() {
        add_head(heads, junctions[junction]);
    }
}

// Appends the heads of reservoirs.
fn add_reservoirs(net: &Net, heads: &mut List<i64>)
    requires { length net.now.reservoirs ≤ heads.old.spare }
    ensures list { heads.new.list ≡ heads.old.list ++ net.now.reservoirs }
    ensures room { length heads.old.list + heads.old.spare ≤ length heads.new.list + heads.new.spare }
{
    let count = net.nodes() - net.junctions() - net.tanks();
    for reservoir in 0..count {
        add_head(heads, reservoir_head(net, reservoir));
    }
}

/// Puts heads of junctions and then those of reservoirs, in head ticks. What the list held before goes. It has room for
/// them, so no memory is taken.
pub(crate) fn put_heads(net: &Net, junctions: &[i64], heads: &mut List<i64>)
    requires { length junctions.now + length net.now.reservoirs ≤ length heads.old.list + heads.old.spare }
    ensures list { heads.new.list ≡ junctions.now ++ net.now.reservoirs }
    ensures room { length heads.old.list + heads.old.spare ≤ length heads.new.list + heads.new.spare }
{
    put_junctions(junctions, heads);
    add_reservoirs(net, heads);
}
