//! Links around junctions that may be cut off, and what is said of them.

ghost use Rattle.hyd_net.specs.Sound.{IsSound};

use hyd_inp::read_project;
use hyd_net::Project;
use hyd_sentences::{DuePeriod, Stopped};
use hyd_spec_certificates::{Problem, Side, StopCause};
use std::{fs, io};

/// How many junctions `cut_off.inp` has.
const JUNCTIONS: u32 = 8;

/// Says of each junction what a stop there without a certificate means.
fn say_of_each(rt: &HostRuntime, project: &Project) -> io::Result<()>
    requires { IsSound project.now }
{
    for junction in 0..JUNCTIONS {
        println!(rt;
            "{}",
            Stopped {
                project,
                time: 0,
                cause: StopCause::NoCertificate {
                    period: 0,
                    problem: Problem::Main,
                    side: Side::Upper,
                    junction
                },
                due: DuePeriod::unknown()
            }
        )?;
    }
    Ok(())
}

/// Says what it means that the rounds of a period of this network are spent.
fn say_spent(rt: &HostRuntime, project: &Project) -> io::Result<()>
    requires { IsSound project.now }
{
    println!(rt;
        "{}",
        Stopped {
            project,
            time: 0,
            cause: StopCause::RoundsSpent {
                period: 0,
                problem: Problem::Main,
                side: Side::Upper,
                rounds: 200
            },
            due: DuePeriod::unknown()
        }
    )
}

/// Says of each junction of `cut_off.inp` what a stop there without a certificate means, and what spent rounds do.
pub(crate) fn say_all(rt: &HostRuntime) -> io::Result<()> {
    let text = fs::read(rt, "cut_off.inp")?;
    match read_project(rt.alloc(), &text) {
        Ok(project) => {
            say_of_each(rt, &project)?;
            say_spent(rt, &project)
        }
        Err(_) => println!(rt; "the network isn't read"),
    }
}
