//! Laws of certificate texts of version 4 and of the faults of their reader.

ghost use Rattle.std.specs.Prelude.{◌≡◌, ℕ, ◌+◌, ◌^◌, ◌<◌, Bool, false, List, ◌++◌, map, All, Option, Some};
ghost use Rattle.hyd_spec.specs.Lists.{joined};
ghost use Rattle.hyd_spec_certificates.specs.RecordAndStanding.{Record};
ghost use Rattle.hyd_spec_certificates.specs.CertificateText.{IsCertificateText, header_line};
ghost use Rattle.hyd_spec_flows.specs.FlowTexts.{Entry, IsTextWithFlows, is_with_flows};
ghost use Rattle.hyd_spec_open_ends.specs.OpenStandings.{OpenRecord};
ghost use Rattle.hyd_spec_open_ends.specs.OpenCertificateText.{IsOpenRow, IsOpenCertificateText};
ghost use Rattle.hyd_spec_open_ends.specs.OpenCertificateText.{open_version, open_record_text};
ghost use Rattle.hyd_spec_open_ends.specs.OpenCertificateText.{open_certificate_text};
ghost use Rattle.hyd_cert.specs.Lines.{Header, IsHeaderLine};
ghost use Rattle.hyd_cert.specs.PlacesOfLines.{Lacks};
ghost use Rattle.hyd_cert.specs.PlacesWithFlows.{IsFlowsHeaderLine};
ghost use Rattle.hyd_cert.specs.declared.answers_of_reader.Stand.TheVariants as stand;
ghost use Rattle.hyd_open_certificates.specs.OpenLines.{open_header};
ghost use Rattle.hyd_open_certificates.specs.OpenTexts.{IsOpenCertificate, BeginsOpenly, open_lines_of};
ghost use Rattle.hyd_open_certificates.specs.OpenFaults.{IsOpenFault, HasOpenHeader, HasOtherOpenHeader};
ghost use Rattle.hyd_open_certificates.specs.OpenFaults.{LacksOpenHeader};

/// A text is a certificate of version 4 of one pair of counts and one list of records at most, with one number and one
/// word in its END line. Two records with which a text begins are the same, and so is what is behind them; the records
/// with which a certificate begins are the first of its own, whatever is behind them.
pub fn one_open_reading()
    ensures counts { (text : List ℕ) (junctions junctions' tanks tanks' periods periods' : ℕ)
        (rows rows' : List OpenRecord) (finished finished' : Bool)
        → IsOpenCertificateText text junctions tanks rows periods finished
        → IsOpenCertificateText text junctions' tanks' rows' periods' finished'
        → (junctions ≡ junctions') × (tanks ≡ tanks') }
    ensures contents { (text : List ℕ) (junctions junctions' tanks tanks' periods periods' : ℕ)
        (rows rows' : List OpenRecord) (finished finished' : Bool)
        → IsOpenCertificateText text junctions tanks rows periods finished
        → IsOpenCertificateText text junctions' tanks' rows' periods' finished'
        → (rows ≡ rows') × ((periods ≡ periods') × (finished ≡ finished')) }
    ensures one_record { (junctions tanks : ℕ) (found other : OpenRecord) (rest behind : List ℕ)
        → IsOpenRow junctions tanks found → IsOpenRow junctions tanks other
        → open_record_text found ++ rest ≡ open_record_text other ++ behind → (found ≡ other) × (rest ≡ behind) }
    ensures first { (text unread : List ℕ) (junctions tanks : ℕ) (front rows : List OpenRecord) (periods : ℕ)
        (finished : Bool) → IsOpenCertificateText text junctions tanks rows periods finished
        → All (IsOpenRow junctions tanks) front
        → text ≡ header_line open_version junctions tanks ++ (joined (map open_record_text front) ++ unread)
        → (more : List OpenRecord) × (rows ≡ front ++ more) }
{}

/// A certificate of version 4 begins with a header line of that version, and a text that does is a certificate of no
/// other one: no header line of theirs begins it.
pub fn versions_apart()
    ensures begins { (header : Header) (text : List ℕ) → IsOpenCertificate header text → HasOpenHeader (Some text) }
    ensures no_header { (other : Header) (text : Option (List ℕ)) → HasOpenHeader text
        → Lacks (IsHeaderLine other) text }
    ensures no_flows_header { (other : Header) (text : Option (List ℕ)) → HasOpenHeader text
        → Lacks (IsFlowsHeaderLine other) text }
    ensures no_certificate { (text : List ℕ) (version junctions tanks : ℕ) (rows : List Record) (periods : ℕ)
        (finished : Bool) → HasOpenHeader (Some text)
        → IsCertificateText text version junctions tanks rows periods finished → ⊥ }
    ensures no_certificate_with_flows { (text : List ℕ) (junctions tanks : ℕ) (entries : List Entry) (periods : ℕ)
        (finished : Bool) → HasOpenHeader (Some text)
        → IsTextWithFlows text junctions tanks entries periods finished → ⊥ }
    ensures no_flows { (text : List ℕ) → HasOpenHeader (Some text) → is_with_flows text ≡ false }
{}

/// A text that was read from its header line through its records to its END line is the certificate of those records.
pub fn open_reading_is_whole()
    ensures { (junctions tanks : ℕ) (text : List ℕ) (rows : List OpenRecord) (periods : ℕ) (finished : Bool)
        → junctions < 2 ^ 32 → tanks < 2 ^ 32 → All (IsOpenRow junctions tanks) rows → periods < 2 ^ 32
        → text ≡ open_certificate_text junctions tanks rows periods finished
        → IsOpenCertificateText text junctions tanks rows periods finished }
{}

/// A fault behind a header line and records is one of the whole text, so many lines further.
pub fn faults_behind_records()
    ensures { (junctions tanks : ℕ) (rows : List OpenRecord) (text rest : List ℕ) (number : ℕ)
        → junctions < 2 ^ 32 → tanks < 2 ^ 32 → All (IsOpenRow junctions tanks) rows
        → BeginsOpenly (open_header junctions tanks) rows (Some text) (Some rest)
        → IsOpenFault (open_header junctions tanks) stand.Between rest number
        → IsOpenFault (open_header junctions tanks) stand.First text
        (open_lines_of (open_header junctions tanks) rows + number) }
{}

/// There is one line at most at which a text is at fault: none in a certificate, and none in a text with a header line
/// of other counts. A text with no header line of version 4 is at fault in its first line.
pub fn lines_with_faults()
    ensures one { (header : Header) (text : List ℕ) (number other : ℕ) → IsOpenFault header stand.First text number
        → IsOpenFault header stand.First text other → number ≡ other }
    ensures own_header { (header : Header) (text : List ℕ) (number : ℕ) → IsOpenFault header stand.First text number
        → HasOtherOpenHeader header (Some text) → ⊥ }
    ensures no_header { (junctions tanks : ℕ) (text : List ℕ) → junctions < 2 ^ 32 → tanks < 2 ^ 32
        → LacksOpenHeader (Some text) → IsOpenFault (open_header junctions tanks) stand.First text 1 }
{}

/// A text that a reader refuses is no certificate of version 4: one that is at fault in a line with no counts at all,
/// one with a header line of other counts not with those that were asked for.
pub fn refused_is_no_open_certificate()
    ensures grammar { (header other : Header) (text : List ℕ) (number : ℕ)
        → IsOpenFault header stand.First text number → IsOpenCertificate other text → ⊥ }
    ensures count { (header : Header) (text : List ℕ) → HasOtherOpenHeader header (Some text)
        → IsOpenCertificate header text → ⊥ }
{}
