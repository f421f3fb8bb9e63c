//! Networks read from texts.
#![tactic(auto)]

ghost use Rattle.std.specs.Prelude.{IfOk};
ghost use Rattle.hyd_net.specs.Sound.{IsSound};

use hyd_inp::read_project;
use hyd_net::Project;
use std::alloc::Global;
use std::test::Fail;

/// The network of a text.
pub(crate) fn read(alloc: Global, text: &str) -> Result<Project, Fail>
    ensures { IfOk result (λ project. IsSound project) }
{
    Ok(read_project(alloc, text.as_bytes())?)
}
