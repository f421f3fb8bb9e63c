//! Nets that were set to the same period are the same.
#![tactic(auto)]

ghost use Rattle.std.specs.Prelude.{ℕ, List};
ghost use Rattle.hyd_spec.specs.ProgramTypes.{Project, LinkState};
ghost use Rattle.hyd_spec.specs.declared.TankState.{TankState};
ghost use Rattle.hyd_spec_certificates.specs.declared.LevelSpan.{LevelSpan};
ghost use Rattle.hyd_period_network.specs.NetView.{NetView};
ghost use Rattle.hyd_period_network.specs.SoundNets.{IsSoundNet};
ghost use Rattle.hyd_period_network.specs.NetsSetToPeriods.{IsSetTo, AnswerAlike};

/// Two nets that were set to the same period answer alike, whatever each was set to before. So one that was set to many
/// periods answers like one that was opened afresh and set once.
pub fn periods()
    ensures { (project : Project) (time : ℕ) (levels : List LevelSpan) (tanks : List TankState) (links : List LinkState)
        (a b : NetView) → IsSoundNet a → IsSoundNet b → IsSetTo project time levels tanks links a
        → IsSetTo project time levels tanks links b → AnswerAlike a b }
{}
