//! Tanks that are empty or full where a period begins.

ghost use Rattle.std.specs.Prelude.{◌≡◌, length};
ghost use Rattle.hyd_net.specs.ControlsAndRules.{node_count};

use crate::sentences::tank_at_bound;
use crate::shown::Name;
use crate::stopped::tank_id;
use hyd_net::{Project, Tank};
use hyd_spec_certificates::LevelSpan;
use std::fmt::{self, Display, Formatter};

// How many tanks are named at most.
const MOST_TANKS: usize = 4;

/// The tanks that are empty or full at the start of a period, the first few of them.
#[derive(Clone, Copy)]
pub(crate) struct TanksAtBounds<'a> {
    /// The network.
    pub project: &'a Project,
    /// The levels of tanks at the start.
    pub levels: &'a [LevelSpan],
    pub ghost nodes: { length project.now.node_ids ≡ node_count project.now },
}

// Whether a tank is full, or empty; none where it is neither.
fn bound_of(levels: &[LevelSpan], number: u32, tank: &Tank) -> Option<bool> {
    let level = levels.get(number as usize)?;
    if level.hi <= tank.minimum {
        return Some(false);
    }
    if tank.maximum <= level.lo && !tank.overflow {
        return Some(true);
    }
    None
}

impl Display for TanksAtBounds<'_> {
    fn fmt<W: fmt::Write>(&self, f: &mut Formatter<W>) -> fmt::Result {
        let TanksAtBounds {
            project,
            levels,
            ..
        } = *self;
        let mut count = 0_usize;
        for (number, tank) in (0..u32::MAX).zip(project.tanks.as_slice()) {
            if let Some(full) = bound_of(levels, number, tank) {
                if count == MOST_TANKS {
                    return Ok(());
                }
                let id = Name(tank_id(project, number));
                write!(f, ". The tank {id}{}", tank_at_bound(full))?;
                count = count.saturating_add(1);
            }
        }
        Ok(())
    }
}
