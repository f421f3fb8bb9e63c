//! Whether quantities lie in their ranges, in ticks.
#![tactic(auto)]

ghost use Rattle.std.specs.Prelude.{◌≡◌};
ghost use Rattle.hyd_rows_and_tables.specs.QuantityRanges as range;

use hyd_net::Cause;
use hyd_net::ranges::{GREATEST_FLOW, GREATEST_HEAD};
use hyd_num::{Decimal, FlowUnit};
use hyd_units::{flow_ticks, head_ticks};

/// Range where a head is above 10^17 head ticks up or down.
pub fn head_fault(head: Decimal, unit: FlowUnit) -> Option<Cause>
    ensures { result ≡ range.head_fault unit head.nano }
{
    let ticks = head_ticks(head, unit.is_us());
    if ticks < -GREATEST_HEAD || ticks > GREATEST_HEAD {
        return Some(Cause::Range);
    }
    None
}

/// Range where a flow is above 10^15 flow ticks either way, after the cut.
pub fn flow_fault(flow: Decimal, unit: FlowUnit) -> Option<Cause>
    ensures { result ≡ range.flow_fault unit flow.nano }
{
    let ticks = flow_ticks(flow, unit);
    if ticks < -GREATEST_FLOW || ticks > GREATEST_FLOW {
        return Some(Cause::Range);
    }
    None
}
