//! Rounds on a small grid from the corners of the box: each raise, and where the rounds end, as an independent
//! calculation has them. No function here has a body.
#![tactic(auto)]

ghost use Rattle.std.specs.Prelude.{pos, neg_ℤ};
ghost use Rattle.hyd_spec_certificates.specs.declared.Problem.TheVariants.{Main};
ghost use Rattle.hyd_spec_certificates.specs.declared.Side.TheVariants.{Upper, Lower};
ghost use Rattle.hyd_spec_certificates.specs.Certificate.{IsCertificate, IsCandidate, IsRaised, IsRound, AreRounds};
ghost use Rattle.hyd_spec_certificates.specs.Certificate.{IsTight};
ghost use Rattle.hyd_cases_of_runs.specs.Rounds.{chain, first_junction, second_junction, floor_heads, ceiling_heads};
ghost use Rattle.hyd_cases_of_runs.specs.Rounds.{floor_once, floor_twice, ceiling_once, ceiling_twice};

/// The least head at which a junction passes is a candidate, and so is one further out. A tick short none is, nor
/// outside the box.
pub fn candidates()
    ensures nearest { IsCandidate chain Main Upper floor_heads 0 first_junction (pos 999999998255848) }
    ensures further { IsCandidate chain Main Upper floor_heads 0 first_junction (pos 1000000000000000) }
    ensures short { IsCandidate chain Main Upper floor_heads 0 first_junction (pos 999999998255847) → ⊥ }
    ensures outside { IsCandidate chain Main Upper floor_heads 0 first_junction (pos 1000000000000000001) → ⊥ }
{}

/// Each junction is raised from the corner, upwards and downwards.
pub fn raised()
    ensures first_up { IsRaised chain Main Upper floor_heads 0 first_junction (pos 999999998255848) }
    ensures second_up { IsRaised chain Main Upper floor_heads 1 second_junction (neg_ℤ (pos 499700000000124582)) }
    ensures first_down { IsRaised chain Main Lower ceiling_heads 0 first_junction (pos 500499999999750835) }
    ensures second_down { IsRaised chain Main Lower ceiling_heads 1 second_junction (pos 600000000996658) }
{}

/// The first round raises both junctions from the same heads.
pub fn round()
    ensures up { IsRound chain Main Upper floor_heads floor_once }
    ensures down { IsRound chain Main Lower ceiling_heads ceiling_once }
{}

/// Two rounds, the second of which leaves one junction where it is.
pub fn rounds()
    ensures up { AreRounds chain Main Upper 2 floor_heads floor_twice }
    ensures down { AreRounds chain Main Lower 2 ceiling_heads ceiling_twice }
{}

/// One round leads to no certificate yet.
pub fn unfinished()
    ensures up { IsCertificate chain Main Upper floor_once → ⊥ }
    ensures down { IsCertificate chain Main Lower ceiling_once → ⊥ }
{}

/// Two rounds lead to the tight vectors.
pub fn finished()
    ensures up { IsTight chain Main Upper floor_twice }
    ensures down { IsTight chain Main Lower ceiling_twice }
{}
