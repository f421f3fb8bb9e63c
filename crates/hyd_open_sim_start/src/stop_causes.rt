//! The causes of a stop.
#![tactic(auto)]

ghost use Rattle.std.specs.Prelude.{◌≡◌, false, IfErr, IfOk};
ghost use Rattle.hyd_sim.specs.NarrowRecordsAndStops.{SaysNone, IsBySpentRounds, stop_of, open_stop_of};

use hyd_period_end::Open;
use hyd_period_network::PeriodDemand;
use hyd_period_vectors::Lack;
use hyd_spec_certificates::StopCause;

/// The stop at the period of a number whose demand is out of range.
pub fn demand_stop(number: u32, fault: PeriodDemand) -> StopCause
    ensures { result ≡ StopCause.Demand number fault.junction fault.value }
{
    StopCause::Demand {
        period: number,
        junction: fault.junction,
        value: fault.value,
    }
}

/// The stop at the period of a number that lacks a vector.
pub fn lack_stop(number: u32, rounds: u32, lack: Lack) -> StopCause
    ensures { result ≡ stop_of number rounds lack }
{
    match lack {
        Lack::NoCertificate {
            problem,
            side,
            junction,
        } => StopCause::NoCertificate {
            period: number,
            problem,
            side,
            junction,
        },
        Lack::RoundsSpent { problem, side } => StopCause::RoundsSpent {
            period: number,
            problem,
            side,
            rounds,
        },
    }
}

/// Whether a period that lacks a vector is done: it isn't, but where only rounds were spent the tight vectors may be
/// reached from other starts. Fails with the stop where no vector is a certificate, and only there.
pub fn lack_fits(number: u32, rounds: u32, lack: Lack) -> Result<bool, StopCause>
    ensures stop { IfErr result (λ cause. cause ≡ stop_of number rounds lack) }
    ensures certain { IfErr result SaysNone }
    ensures goes_on { IfOk result (λ fits. fits ≡ false) }
    ensures spent { IfOk result (λ fits. IsBySpentRounds lack) }
{
    match lack {
        Lack::NoCertificate { .. } => Err(lack_stop(number, rounds, lack)),
        Lack::RoundsSpent { .. } => Ok(false),
    }
}

/// The stop at the period of a number whose tight vectors leave a matter open.
pub fn open_stop(number: u32, found: Open) -> StopCause
    ensures { result ≡ open_stop_of number found }
{
    match found {
        Open::Rule(rule) => StopCause::RuleOpen {
            period: number,
            rule: rule.rule,
            clause: rule.clause,
            lo: rule.lo,
            hi: rule.hi,
        },
        Open::Event { earliest, latest } => StopCause::EventOpen {
            period: number,
            earliest,
            latest,
        },
        Open::Tank(tank) => StopCause::TankOpen {
            period: number,
            tank: tank.tank,
            lo: i128::from(tank.lo),
            hi: i128::from(tank.hi),
        },
        Open::Control(level) => StopCause::ControlOpen {
            period: number,
            control: level.control,
            lo: i128::from(level.lo),
            hi: i128::from(level.hi),
        },
    }
}
