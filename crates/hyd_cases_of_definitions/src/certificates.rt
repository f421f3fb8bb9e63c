//! Certificates: the tight vectors pass, and a tick less (UPPER) or more (LOWER) at any junction doesn't.
#![tactic(auto)]

ghost use Rattle.std.specs.Prelude.{pos, ℤ, List, [], ◌∷◌};
ghost use Rattle.hyd_spec.specs.ProgramTypes.{Capacity};
ghost use Rattle.hyd_spec_certificates.specs.declared.Problem.TheVariants.{Main, Pinned};
ghost use Rattle.hyd_spec_certificates.specs.declared.Side.TheVariants.{Upper, Lower};
ghost use Rattle.hyd_spec_certificates.specs.Certificate.{IsCertificate};
ghost use Rattle.hyd_cases_of_definitions.specs.Capacities.{IsValve};
ghost use Rattle.hyd_cases_of_definitions.specs.OneValve.{one_valve, thirsty_valve};
ghost use Rattle.hyd_cases_of_definitions.specs.EachKindOfLink.{CityParts, city, upper, lower, pinned_upper};
ghost use Rattle.hyd_cases_of_definitions.specs.EachKindOfLink.{pinned_lower};

/// The valve of 304.8 mm that takes 1000 cubic metres a day from a reservoir at 100 m.
pub fn one_valve()
    ensures upper_passes { (capacity : Capacity) → IsValve capacity
        → IsCertificate (one_valve capacity) Main Upper (pos 998718316144933 ∷ []) }
    ensures upper_fails { (capacity : Capacity) → IsValve capacity
        → IsCertificate (one_valve capacity) Main Upper (pos 998718316144932 ∷ []) → ⊥ }
    ensures lower_passes { (capacity : Capacity) → IsValve capacity
        → IsCertificate (one_valve capacity) Main Lower (pos 998718316123912 ∷ []) }
    ensures lower_fails { (capacity : Capacity) → IsValve capacity
        → IsCertificate (one_valve capacity) Main Lower (pos 998718316123913 ∷ []) → ⊥ }
{}

/// The same valve with a demand that it can't carry: a vector passes for UPPER, and none for LOWER.
pub fn thirsty_valve()
    ensures upper_passes { (capacity : Capacity) → IsValve capacity
        → IsCertificate (thirsty_valve capacity) Main Upper (pos 1000000000000000 ∷ []) }
    ensures no_lower { (capacity : Capacity) → IsValve capacity → (u : List ℤ)
        → IsCertificate (thirsty_valve capacity) Main Lower u → ⊥ }
{}

/// The city: its tight vectors, and each of them a tick nearer at one junction.
pub fn city_main()
    ensures upper_passes { (parts : CityParts) → IsCertificate (city parts) Main Upper upper }
    ensures upper_fails_at_first { (parts : CityParts) → IsCertificate (city parts) Main Upper
        (pos 526428225406958 ∷ pos 1015580607643695 ∷ []) → ⊥ }
    ensures upper_fails_at_second { (parts : CityParts) → IsCertificate (city parts) Main Upper
        (pos 526428225406959 ∷ pos 1015580607643694 ∷ [])
        → ⊥ }
    ensures lower_passes { (parts : CityParts) → IsCertificate (city parts) Main Lower lower }
    ensures lower_fails_at_first { (parts : CityParts) → IsCertificate (city parts) Main Lower
        (pos 525959255858585 ∷ pos 1015580607115147 ∷ []) → ⊥ }
    ensures lower_fails_at_second { (parts : CityParts) → IsCertificate (city parts) Main Lower
        (pos 525959255858584 ∷ pos 1015580607115148 ∷ [])
        → ⊥ }
{}

/// The same with its tank pinned.
pub fn city_pinned()
    ensures upper_passes { (parts : CityParts) → IsCertificate (city parts) (Pinned 0) Upper pinned_upper }
    ensures upper_fails_at_first { (parts : CityParts) → IsCertificate (city parts) (Pinned 0) Upper
        (pos 525959255971880 ∷ pos 1015580607643695 ∷ [])
        → ⊥ }
    ensures upper_fails_at_second { (parts : CityParts) → IsCertificate (city parts) (Pinned 0) Upper
        (pos 525959255971881 ∷ pos 1015580607643694
        ∷ []) → ⊥ }
    ensures lower_passes { (parts : CityParts) → IsCertificate (city parts) (Pinned 0) Lower pinned_lower }
    ensures lower_fails_at_first { (parts : CityParts) → IsCertificate (city parts) (Pinned 0) Lower
        (pos 526428225292915 ∷ pos 1015580607115147 ∷ [])
        → ⊥ }
    ensures lower_fails_at_second { (parts : CityParts) → IsCertificate (city parts) (Pinned 0) Lower
        (pos 526428225292914 ∷ pos 1015580607115148
        ∷ []) → ⊥ }
{}
