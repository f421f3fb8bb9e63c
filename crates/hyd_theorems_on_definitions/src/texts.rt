//! Laws of the texts of certificates.
#![tactic(auto)]

ghost use Rattle.std.specs.Prelude.{◌≡◌, ℕ, Bool, List};
ghost use Rattle.hyd_spec_certificates.specs.RecordAndStanding.{Record};
ghost use Rattle.hyd_spec_certificates.specs.CertificateText.{IsCertificateText};

/// A text is a certificate text of one version, one pair of counts and one list of records at most,
/// with one number and one word in its end line.
pub fn one_reading()
    ensures counts { (text : List ℕ) (version version' junctions junctions' tanks tanks' periods periods' : ℕ)
        (rows rows' : List Record)
        (finished finished' : Bool) → IsCertificateText text version junctions tanks rows periods finished
        → IsCertificateText text version' junctions' tanks' rows' periods' finished'
        → (version ≡ version') × ((junctions ≡ junctions') × (tanks ≡ tanks')) }
    ensures contents { (text : List ℕ) (version version' junctions junctions' tanks tanks' periods periods' : ℕ)
        (rows rows' : List Record)
        (finished finished' : Bool) → IsCertificateText text version junctions tanks rows periods finished
        → IsCertificateText text version' junctions' tanks' rows' periods' finished'
        → (rows ≡ rows') × ((periods ≡ periods') × (finished ≡ finished')) }
{}
