//! Laws of certificate texts and of the faults of a reader.

ghost use Rattle.std.specs.Prelude.{◌≡◌, ℕ, ◌+◌, ◌^◌, ◌<◌, ◌≤◌, Bool, List, Option, Some, All};
ghost use Rattle.hyd_spec_certificates.specs.RecordAndStanding.{Record};
ghost use Rattle.hyd_spec_certificates.specs.CertificateText.{IsRow, IsCertificateText, certificate_text};
ghost use Rattle.hyd_cert.specs.Lines.{Header, IsHeaderLine, header_words};
ghost use Rattle.hyd_cert.specs.PlacesOfLines.{First, Between, Goes, IsFault};
ghost use Rattle.hyd_cert.specs.Faults.{HasOtherHeader};
ghost use Rattle.hyd_cert.specs.FaultyLine.{IsCertificate, IsFirstFault, lines_of, BeginsWith};

/// The texts whose lines can stand where they do, up to an END line that ends the text, are the certificates.
pub fn certificates_by_lines()
    ensures certificate_goes { (header : Header) (text : List ℕ) → IsCertificate header text → Goes header First text }
    ensures goes_certificate { (header : Header) (text : List ℕ) → Goes header First text → IsCertificate header text }
{}

/// A text at fault in a line: that is the first line with which, the end of the text counted in, the text begins no
/// certificate.
pub fn fault_is_first()
    ensures { (header : Header) (line text : List ℕ) (number : ℕ) → IsHeaderLine header line
        → IsFault header First (Some text) number → IsFirstFault header text number }
{}

/// There is one such line at most: none in a certificate, and none in a text with a header line of another version or
/// of other counts.
pub fn first_fault_is_one()
    ensures one { (header : Header) (text : List ℕ) (number other : ℕ) → IsFirstFault header text number
        → IsFirstFault header text other → number ≡ other }
    ensures no_certificate { (header other : Header) (text : List ℕ) (number : ℕ) → IsFirstFault header text number
        → IsCertificate other text → ⊥ }
    ensures own_header { (header : Header) (text : List ℕ) (number : ℕ) → IsFirstFault header text number
        → HasOtherHeader header (Some text) → ⊥ }
{}

/// A text that a reader refuses is no certificate: one that is at fault in a line with no header at all, one that has a
/// header line of another version or of other counts not with the header that was asked for.
pub fn refused_is_no_certificate()
    ensures grammar { (header other : Header) (text : List ℕ) (number : ℕ) → IsFault header First (Some text) number
        → IsCertificate other text → ⊥ }
    ensures count { (header : Header) (text : List ℕ) → HasOtherHeader header (Some text)
        → IsCertificate header text → ⊥ }
{}

/// A fault behind a header line and records is one of the whole text, so many lines further.
pub fn fault_behind_records()
    ensures { (header : Header) (line : List ℕ) (rows : List Record) (text rest : Option (List ℕ)) (number : ℕ)
        → IsHeaderLine header line → All (IsRow header.junctions header.tanks) rows → BeginsWith header rows text rest
        → IsFault header Between rest number → IsFault header First text (lines_of header rows + number) }
{}

/// The header of a record, whose version is 1 or 2, is one that a text can have.
pub fn record_has_a_header()
    ensures { (header : Header) → 1 ≤ header.version → header.version ≤ 2
        → header.junctions < 2 ^ 32 → header.tanks < 2 ^ 32 → IsHeaderLine header (header_words header) }
{}

/// A text that was read from its header line through its records to its END line is the certificate of those records.
pub fn reading_is_whole()
    ensures { (header : Header) (line text : List ℕ) (rows : List Record) (periods : ℕ) (finished : Bool)
        → IsHeaderLine header line → All (IsRow header.junctions header.tanks) rows → periods < 2 ^ 32
        → text ≡ certificate_text header.version header.junctions header.tanks rows periods finished
        → IsCertificateText text header.version header.junctions header.tanks rows periods finished }
{}
