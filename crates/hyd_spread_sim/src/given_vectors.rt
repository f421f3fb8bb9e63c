//! The vectors of a record that was handed in for a spread.
#![tactic(auto)]

ghost use Rattle.std.specs.Prelude.{◌+◌, IfErr, OnOk};
ghost use Rattle.hyd_spec_certificates.specs.declared.Side.{Side};
ghost use Rattle.hyd_spec_certificates.specs.declared.Side.TheVariants.{Upper};
ghost use Rattle.hyd_spec_certificates.specs.TurnsOfProblems.{turn};
ghost use Rattle.hyd_cert.specs.RecordView.{header_of, row_of, IsProblemOf};
ghost use Rattle.hyd_period_vectors.specs.SoughtVectors.{EachBefore, OfEach, Fits};
ghost use Rattle.hyd_spread_networks.specs.NetsOfSpreads.{net_on, pair_of};
ghost use Rattle.hyd_spread_sim.specs.GivenVectors.{FailsAtOver, IsCertificateOn};

use hyd_cert::Record;
use hyd_open_sim_start::Failing;
use hyd_spec_certificates::{Problem, Side};
use hyd_spread_networks::SpreadNets;
use hyd_vector_check::check;

// Decides whether the vector of a problem and side is a certificate on the net of that side, as all before it in their
// order are on theirs.
fn check_one(nets: &SpreadNets, row: &Record, problem: Problem, side: Side) -> Result<(), Failing>
    requires fits { (face : Side) → Fits (net_on face nets.now) (header_of row.now) }
    requires problem { IsProblemOf row.now.tanks problem }
    requires before { EachBefore (IsCertificateOn (pair_of nets.now)) row.now.tanks (turn problem side)
        (row_of row.now) }
    ensures certificate { OnOk result (EachBefore (IsCertificateOn (pair_of nets.now)) row.now.tanks
        (turn problem side + 1) (row_of row.now)) }
    ensures fails { IfErr result (FailsAtOver (pair_of nets.now) row.now.tanks (row_of row.now)) }
{
    match check(nets.on(side), problem, side, row.vector(problem, side)) {
        Ok(()) => Ok(()),
        Err(fails) => Err(Failing {
            problem,
            side,
            junction: fails.junction,
        }),
    }
}

// Decides whether both vectors of a problem are certificates, UPPER first, as all before them are.
fn check_both(nets: &SpreadNets, row: &Record, problem: Problem) -> Result<(), Failing>
    requires fits { (face : Side) → Fits (net_on face nets.now) (header_of row.now) }
    requires problem { IsProblemOf row.now.tanks problem }
    requires before { EachBefore (IsCertificateOn (pair_of nets.now)) row.now.tanks (turn problem Upper)
        (row_of row.now) }
    ensures certificate { OnOk result (EachBefore (IsCertificateOn (pair_of nets.now)) row.now.tanks
        (turn problem Upper + 2) (row_of row.now)) }
    ensures fails { IfErr result (FailsAtOver (pair_of nets.now) row.now.tanks (row_of row.now)) }
{
    check_one(nets, row, problem, Side::Upper)?;
    check_one(nets, row, problem, Side::Lower)
}

/// Decides whether each vector of a record is a certificate on the net of its side. Fails with the first that isn't, in
/// the order MAIN UPPER, MAIN LOWER and both sides of each tank pinned.
pub(crate) fn check_vectors_over(nets: &SpreadNets, row: &Record) -> Result<(), Failing>
    requires fits { (face : Side) → Fits (net_on face nets.now) (header_of row.now) }
    ensures certificates { OnOk result (OfEach (IsCertificateOn (pair_of nets.now)) row.now.tanks (row_of row.now)) }
    ensures fails { IfErr result (FailsAtOver (pair_of nets.now) row.now.tanks (row_of row.now)) }
{
    check_both(nets, row, Problem::Main)?;
    for tank in 0..row.tanks {
        check_both(nets, row, Problem::Pinned(tank))?;
    }
    Ok(())
}
