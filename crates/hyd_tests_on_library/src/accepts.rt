//! Records handed to a run as those of the periods that are due.

ghost use Rattle.std.specs.Prelude.{◌≡◌, None};

use crate::finder_proposals::IDLE;
use crate::runs_at_start::{Trial, passes};
use hyd_cert::Record;
use hyd_sim::{Settings, Sim};
use hyd_spec_certificates::{CertRefused, Problem, Side};
use hyd_test_helpers::METRE;
use std::alloc::Global;
use std::test::Fail;

/// What a run answers to a record, and how many periods are done behind it.
type Answer = (Option<Result<(), CertRefused>>, u32);

/// The record of one junction and no tank with these heads.
fn record_of(alloc: Global, upper: i64, lower: i64) -> Result<Record, Fail> {
    let mut row = Record::open(alloc, 1, 1, 0)?;
    row.set_vector(Problem::Main, Side::Upper, &[upper]);
    row.set_vector(Problem::Main, Side::Lower, &[lower]);
    Ok(row)
}

/// What a run answers to a record, if the record has as many junctions and tanks as the network.
fn answer(sim: &mut Sim, row: &Record) -> Answer
    requires running { sim.old.stopped ≡ None }
    ensures running { sim.new.stopped ≡ None }
{
    let project = sim.project();
    let junctions = project.junctions.len();
    let tanks = project.tanks.len();
    if junctions != row.junctions as usize || tanks != row.tanks as usize {
        return (None, sim.number());
    }
    let answer = sim.accept(row);
    (Some(answer), sim.number())
}

/// What a run answers to a record that is wrong, to one that is right, and to that one again.
fn answers(sim: &mut Sim, wrong: &Record, right: &Record) -> [Answer; 3]
    requires running { sim.old.stopped ≡ None }
{
    let first = answer(sim, wrong);
    let second = answer(sim, right);
    let third = answer(sim, right);
    [first, second, third]
}

/// A record that is wrong and one that is right, handed to a run. It passes where the first is refused, the second is
/// accepted, and that one again is refused.
#[derive(Drop)]
struct HandedIn<'a> {
    wrong: &'a Record,
    right: &'a Record,
}

impl<'a> Trial for HandedIn<'a> {
    fn passes(&mut self, sim: &mut Sim) -> bool {
        let three = answers(sim, self.wrong, self.right);
        fails_at_first(three[0]) && is_accepted(three[1]) && is_behind_the_end(three[2])
    }
}

/// Checking finds no vectors.
const NO_SEARCH: Settings = Settings {
    rounds: 0,
    width: 0,
    tight: false,
};

// Whether a record is refused, since its upper vector fails at the first junction, and no period is done behind it.
fn fails_at_first(answer: Answer) -> bool {
    match answer {
        (
            Some(
                Err(
                    CertRefused::Fails {
                        period,
                        problem: Problem::Main,
                        side: Side::Upper,
                        junction,
                    },
                ),
            ),
            done,
        ) => period == 0 && junction == 0 && done == 0,
        _ => false,
    }
}

// Whether a record is accepted, and one period is done behind it.
fn is_accepted(answer: Answer) -> bool {
    match answer {
        (Some(Ok(())), done) => done == 1,
        _ => false,
    }
}

// Whether a record is refused as one behind the end, and one period is done.
fn is_behind_the_end(answer: Answer) -> bool {
    match answer {
        (Some(Err(CertRefused::After { period })), done) => period == 1 && done == 1,
        _ => false,
    }
}

#[test]
fn a_record_that_is_refused_leaves_the_run_where_it_was(rt: HostRuntime) -> Result<(), Fail> {
    let alloc = rt.alloc();
    let wrong = record_of(alloc, 100 * METRE, 100 * METRE - 1)?;
    let right = record_of(alloc, 100 * METRE + 1, 100 * METRE - 1)?;
    let mut records = HandedIn {
        wrong: &wrong,
        right: &right,
    };
    assert!(rt; passes(alloc, IDLE, NO_SEARCH, &mut records));
    Ok(())
}
