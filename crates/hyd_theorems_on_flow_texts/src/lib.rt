//! Laws of the texts of certificates with flows: what their first line says, that they are read in one way, where they
//! are at fault, and how many lines their entries have. Each statement is the contract of a small function.
#![tactic(auto)]

ghost use Rattle.std.specs.Prelude.{◌≡◌, ℕ, ◌+◌, ◌*◌, ◌^◌, ◌<◌, Bool, true, false, List, ◌++◌, map, Some, All};
ghost use Rattle.hyd_spec.specs.Lists.{joined};
ghost use Rattle.hyd_spec_certificates.specs.RecordAndStanding.{Record};
ghost use Rattle.hyd_spec_certificates.specs.CertificateText.{IsRow, IsCertificateText, header_line, record_text};
ghost use Rattle.hyd_spec_certificates.specs.CertificateText.{line_feeds};
ghost use Rattle.hyd_spec_flows.specs.FlowParts.{FlowPart};
ghost use Rattle.hyd_spec_flows.specs.FlowTexts.{Entry, IsEntry, IsTextWithFlows, entry_text, flows_version};
ghost use Rattle.hyd_spec_flows.specs.FlowTexts.{is_with_flows};
ghost use Rattle.hyd_cert.specs.PlacesOfLines.{heads_in};
ghost use Rattle.hyd_cert.specs.PlacesWithFlows.{Between, IsStuckInside, with_flows};
ghost use Rattle.hyd_cert.specs.Lines.{Header};
ghost use Rattle.hyd_cert.specs.ReaderWithFlows.{LacksFlowsHeader, part_behind, IsPartBehind, part_lines};
ghost use Rattle.hyd_theorems_on_flow_texts.specs.FaultyLineWithFlows.{IsFirstFaultWithFlows};
ghost use Rattle.hyd_theorems_on_flow_texts.specs.FaultyLineWithFlows.{IsCertificateWithFlows};

/// The first line of a certificate says whether it has flows.
pub fn versions()
    ensures with_flows { (text : List ℕ) (junctions tanks : ℕ) (entries : List Entry) (periods : ℕ) (finished : Bool)
        → IsTextWithFlows text junctions tanks entries periods finished → is_with_flows text ≡ true }
    ensures without_flows { (text : List ℕ) (version junctions tanks : ℕ) (rows : List Record) (periods : ℕ)
        (finished : Bool) → IsCertificateText text version junctions tanks rows periods finished
        → is_with_flows text ≡ false }
{}

/// A text that is at fault in the entry behind those that were read: that line is the first with which, the end of the
/// text counted in, the text begins no certificate. So is the first line where the text begins as one with flows and no
/// header line of version 3 begins it.
pub fn faults()
    ensures in_entry { (n k : ℕ) → n < 2 ^ 32 → k < 2 ^ 32 → (text : List ℕ) (entries : List Entry) (left : List ℕ)
        (offset : ℕ) → All (IsEntry n k) entries
        → text ≡ (header_line flows_version n k ++ joined (map entry_text entries)) ++ left
        → IsStuckInside (record { version = flows_version; junctions = n; tanks = k }) Between (Some left) offset
        → IsFirstFaultWithFlows n k text
        (line_feeds (header_line flows_version n k ++ joined (map entry_text entries)) + offset) }
    ensures in_header { (n k : ℕ) → n < 2 ^ 32 → k < 2 ^ 32 → (text : List ℕ) → is_with_flows text ≡ true
        → LacksFlowsHeader (Some text) → IsFirstFaultWithFlows n k text 1 }
{}

/// A text is at fault in one line at most, and no certificate with flows is at fault in one.
pub fn one_fault()
    ensures one { (n k : ℕ) (text : List ℕ) (number other : ℕ) → IsFirstFaultWithFlows n k text number
        → IsFirstFaultWithFlows n k text other → number ≡ other }
    ensures none { (n k : ℕ) (text : List ℕ) (number : ℕ) → IsFirstFaultWithFlows n k text number
        → IsCertificateWithFlows n k text → ⊥ }
{}

/// Two entries with which a text begins are the same, and so is what is behind them. So a text with flows has one
/// reading, and the entries with which it begins are the first of its own, whatever is behind them.
pub fn readings()
    ensures one_entry { (n k : ℕ) (entry other : Entry) (rest behind : List ℕ) → IsEntry n k entry → IsEntry n k other
        → entry_text entry ++ rest ≡ entry_text other ++ behind → (entry ≡ other) × (rest ≡ behind) }
    ensures one { (text : List ℕ) (n k : ℕ) (entries others : List Entry) (periods number : ℕ) (finished word : Bool)
        → IsTextWithFlows text n k entries periods finished → IsTextWithFlows text n k others number word
        → (entries ≡ others) × ((periods ≡ number) × (finished ≡ word)) }
    ensures first { (text unread : List ℕ) (n k : ℕ) (front entries : List Entry) (periods : ℕ) (finished : Bool)
        → IsTextWithFlows text n k entries periods finished → All (IsEntry n k) front
        → text ≡ header_line flows_version n k ++ (joined (map entry_text front) ++ unread)
        → (more : List Entry) × (entries ≡ front ++ more) }
{}

/// No whole entry stands where a text is at fault in one.
pub fn no_whole_entry()
    ensures { (header : Header) (number : ℕ) (entry : Entry) (unread : List ℕ)
        → IsStuckInside header Between (Some (entry_text entry ++ unread)) number
        → IsEntry header.junctions header.tanks entry → ⊥ }
{}

/// How many lines a record has with the part behind it.
pub fn lines_of_entries()
    ensures { (flows : Bool) (n k : ℕ) (row : Record) (part : FlowPart) → IsRow n k row → IsPartBehind flows n part
        → line_feeds (record_text row ++ part_behind flows part) ≡ 1 + heads_in n k + part_lines flows n part }
{}
