//! Networks read from texts.
#![tactic(auto)]

ghost use Rattle.std.specs.Prelude.{◌≡◌, IfOk};
ghost use Rattle.hyd_net.specs.Sound.{IsSound};

use hyd_inp::read_project;
use hyd_net::Project;
use hyd_spec_certificates::LevelSpan;
use std::alloc::Global;
use std::test::Fail;

/// The network of a text.
pub(crate) fn read(alloc: Global, text: &str) -> Result<Project, Fail>
    ensures { IfOk result (λ project. IsSound project) }
{
    Ok(read_project(alloc, text.as_bytes())?)
}

/// All levels from one to another.
pub(crate) fn levels(ends: (i64, i64)) -> LevelSpan
    ensures lo { result.lo ≡ ends.0 }
    ensures hi { result.hi ≡ ends.1 }
{
    LevelSpan {
        lo: ends.0,
        hi: ends.1,
    }
}
