//! Questions about a target pressure for the spread of a text, with all the memory that they take.

ghost use Rattle.std.specs.Prelude.{◌≡◌, ◌≤◌, ◌^◌, unsigned_abs, IfOk, IfErr};
ghost use Rattle.hyd_net.specs.Sound.{IsSound};
ghost use Rattle.hyd_spec_spread_rows.specs.TextsOfSpreads.{spread_in};
ghost use Rattle.hyd_spread_rows.specs.SpreadsRead.{IfFault};
ghost use Rattle.hyd_spread_files.specs.RefusedSpreads.{GivesRun, IsSpreadFault};
ghost use Rattle.hyd_spread_targets.specs.InquiriesWithin.{IsOpenWithin, spread_for};

use hyd_net::Project;
use hyd_num::Decimal;
use hyd_spread_files::nets_fault;
use hyd_spread_rows::SpreadRefused;
use hyd_spread_start::read_start;
use hyd_spread_targets::SpreadInquiry;
use std::alloc::Global;

/// Takes the memory for questions about a network within the spread of a text. Fails with the fault of the text,
/// exactly where it has one, or for want of memory. The pressure is at most 10^4 in magnitude, in the file's unit.
pub(crate) fn open_inquiry(
    alloc: Global,
    project: &Project,
    text: &[u8],
    pressure: Decimal,
) -> Result<SpreadInquiry, SpreadRefused>
    requires sound { IsSound project.now }
    requires small { unsigned_abs pressure.nano ≤ 10 ^ 13 }
    ensures fault { IfErr result (λ refused. IfFault refused (λ fault.
        IsSpreadFault project.now text.now fault.line fault.cause)) }
    ensures gives { IfOk result (λ inquiry. GivesRun project.now text.now) }
    ensures open { IfOk result (IsOpenWithin project.now) }
    ensures spread { IfOk result (λ inquiry. spread_for inquiry ≡ spread_in project.now text.now) }
    ensures pressure { IfOk result (λ inquiry. inquiry.pressure.nano ≡ pressure.nano) }
{
    let start = read_start(alloc, project, text)?;
    match SpreadInquiry::open(alloc, project, start, pressure) {
        Ok(inquiry) => Ok(inquiry),
        Err(refused) => Err(nets_fault(project, text, refused)),
    }
}
