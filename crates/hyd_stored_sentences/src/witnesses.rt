//! What is said of a witness that isn't met or has a line that can't be so, and of a period for which none was found.

ghost use Rattle.hyd_net.specs.Sound.{IsSound};

use hyd_net::Project;
use hyd_spec_witnesses::{MetClause, Unmet};
use hyd_witness_sentences::{BadLine, UnfoundPeriod, UnmetPeriod};
use std::io;

/// Each clause that may fail, at a link or a junction of a number where it names one; the last two name none that there is.
const UNMET: &[Unmet] = &[
    Unmet {
        clause: MetClause::Start,
        number: 0,
    },
    Unmet {
        clause: MetClause::Link,
        number: 1,
    },
    Unmet {
        clause: MetClause::Demand,
        number: 0,
    },
    Unmet {
        clause: MetClause::Emitter,
        number: 1,
    },
    Unmet {
        clause: MetClause::Balance,
        number: 0,
    },
    Unmet {
        clause: MetClause::Length,
        number: 0,
    },
    Unmet {
        clause: MetClause::Link,
        number: 99,
    },
    Unmet {
        clause: MetClause::Balance,
        number: 2,
    },
];

/// Says each.
pub(crate) fn say_all(rt: &HostRuntime, project: &Project) -> io::Result<()>
    requires { IsSound project.now }
{
    for unmet in UNMET {
        println!(rt;
            "{}",
            UnmetPeriod {
                project,
                period: 3,
                unmet: *unmet
            }
        )?;
    }
    for line in [1, 2, 12] {
        println!(rt; "{}", BadLine { line })?;
    }
    println!(rt; "{}", UnfoundPeriod { period: 3 })
}
