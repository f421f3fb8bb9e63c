//! The vectors of a record that was handed in.
#![tactic(auto)]

ghost use Rattle.std.specs.Prelude.{◌≡◌, ◌+◌, length, IfErr, OnOk};
ghost use Rattle.hyd_spec_certificates.specs.declared.Side.TheVariants.{Upper};
ghost use Rattle.hyd_spec_certificates.specs.Certificate.{IsCertificate};
ghost use Rattle.hyd_spec_certificates.specs.TurnsOfProblems.{turn};
ghost use Rattle.hyd_cert.specs.RecordView.{header_of, row_of};
ghost use Rattle.hyd_period_network.specs.NetAsPeriodNetwork.{grid_of};
ghost use Rattle.hyd_period_network.specs.SoundNets.{HasProblem};
ghost use Rattle.hyd_period_vectors.specs.SoughtVectors.{EachBefore, OfEach, Fits, Stays};
ghost use Rattle.hyd_open_sim_start.specs.GivenVectors.{FailsAt};

use hyd_cert::Record;
use hyd_period_network::Net;
use hyd_spec_certificates::{Problem, Side};
use hyd_vector_check::check;

/// The first vector of a record that isn't a certificate.
#[derive(Clone, Copy, Drop)]
pub struct Failing {
    /// The problem of its vector.
    pub problem: Problem,
    /// The side of that.
    pub side: Side,
    /// The junction at which it fails first, counted from 0.
    pub junction: u32,
}

// Decides whether the vector of a problem and side is a certificate, as all before it in their order are.
fn check_one(net: &Net, row: &Record, problem: Problem, side: Side) -> Result<(), Failing>
    requires fits { Fits net.now (header_of row.now) }
    requires pinned { HasProblem net.now problem }
    requires before { EachBefore (IsCertificate (grid_of net.now)) (length net.now.tanks) (turn problem side)
        (row_of row.now) }
    ensures certificate { OnOk result (EachBefore (IsCertificate (grid_of net.now)) (length net.now.tanks)
        (turn problem side + 1) (row_of row.now)) }
    ensures fails { IfErr result (FailsAt (grid_of net.now) (length net.now.tanks) (row_of row.now)) }
{
    match check(net, problem, side, row.vector(problem, side)) {
        Ok(()) => Ok(()),
        Err(fails) => Err(Failing {
            problem,
            side,
            junction: fails.junction,
        }),
    }
}

// Decides whether both vectors of a problem are certificates, UPPER first, as all before them are.
fn check_both(net: &Net, row: &Record, problem: Problem) -> Result<(), Failing>
    requires fits { Fits net.now (header_of row.now) }
    requires pinned { HasProblem net.now problem }
    requires before { EachBefore (IsCertificate (grid_of net.now)) (length net.now.tanks) (turn problem Upper)
        (row_of row.now) }
    ensures certificates { OnOk result (EachBefore (IsCertificate (grid_of net.now)) (length net.now.tanks)
        (turn problem Upper + 2) (row_of row.now)) }
    ensures fails { IfErr result (FailsAt (grid_of net.now) (length net.now.tanks) (row_of row.now)) }
{
    check_one(net, row, problem, Side::Upper)?;
    check_one(net, row, problem, Side::Lower)
}

/// Decides whether each vector of a record is a certificate. Fails with the first that isn't, in the order MAIN UPPER,
/// MAIN LOWER and both sides of each tank pinned.
pub fn check_vectors(net: &Net, row: &Record) -> Result<(), Failing>
    requires fits { Fits net.now (header_of row.now) }
    ensures certificates { OnOk result (OfEach (IsCertificate (grid_of net.now)) (length net.now.tanks)
        (row_of row.now)) }
    ensures fails { IfErr result (FailsAt (grid_of net.now) (length net.now.tanks) (row_of row.now)) }
{
    check_both(net, row, Problem::Main)?;
    for tank in 0..row.tanks {
        check_both(net, row, Problem::Pinned(tank))?;
    }
    Ok(())
}

/// Gives a record the vectors of another with the same counts.
pub fn take_vectors(row: &mut Record, given: &Record)
    requires junctions { given.now.junctions ≡ row.old.junctions }
    requires tanks { given.now.tanks ≡ row.old.tanks }
    ensures vectors { row.new.vectors.list ≡ given.now.vectors.list }
    ensures stays { Stays row.old row.new }
{
    row.vectors
        .as_mut_slice()
        .copy_from_slice(given.vectors.as_slice());
}
