//! Texts of generated networks.
#![tactic(auto)]

ghost use Rattle.std.specs.Prelude.{◌≡◌, [], ◌∷◌, map, codes};
ghost use Rattle.std.specs.List.{flat_map};
ghost use Rattle.hyd_spec_certificates.specs.CertificateText.{line};
ghost use Rattle.hyd_spec_generated.specs.Sequence.{drawn};
ghost use Rattle.hyd_spec_generated.specs.GeneratedText.{demand, pipes_from, generated_text};

/// The first number that a seed draws, demands, the pipes where a row ends and where the last row begins, and the text
/// of one junction.
pub fn networks()
    ensures drawn { drawn 7 1 ≡ 1282168116 }
    ensures demands { map (demand 7) (1 ∷ 2 ∷ 3 ∷ 4 ∷ 51 ∷ []) ≡ 4 ∷ 6 ∷ 8 ∷ 4 ∷ 7 ∷ [] }
    ensures row_ends { flat_map line (flat_map (pipes_from 101) (49 ∷ 50 ∷ 51 ∷ 52 ∷ []))
        ≡ codes "H49 J49 J50 100 300 0.01 0\nV49 J49 J99 100 300 0.01 0\nV50 J50 J100 100 300 0.01 0\nH51 J51 J52 100 300 0.01 0\nV51 J51 J101 100 300 0.01 0\nH52 J52 J53 100 300 0.01 0\n" }
    ensures last { flat_map (pipes_from 101) (100 ∷ 101 ∷ []) ≡ [] }
    ensures text { generated_text 7 1
        ≡ codes "[OPTIONS]\nUNITS CMD\nHEADLOSS C-M\n[TIMES]\nDURATION 24\n[PATTERNS]\n1 1 0.5 1 1.5\n[JUNCTIONS]\nJ1 0 4\n[RESERVOIRS]\nR 60\n[TANKS]\nT 50 5 0 10 200 0\n[PIPES]\nPR R J1 100 300 0.01 0\nPT J1 T 100 300 0.01 0\n" }
{}
