//! The network of a text without a fault is sound: whatever rows say, the network that they describe meets every range
//! that the computation rests on. A text has one fault or none, and one with a fault isn't one without; its rows describe
//! one network at most. Each part is the contract of a small function, on the definitions alone.
#![tactic(auto)]

ghost use Rattle.std.specs.Prelude.{◌≡◌, ℕ, List, All};
ghost use Rattle.hyd_spec_lines.specs.Lines.{Row, items_of, rows_in};
ghost use Rattle.hyd_net.specs.declared.refusal_cause.Cause.{Cause};
ghost use Rattle.hyd_net.specs.declared.project.Project.{Project};
ghost use Rattle.hyd_net.specs.ControlsAndRules.{node_count, IsControl, IsRule};
ghost use Rattle.hyd_net.specs.NetworkRanges.{HasOptions, HasSizes, IsJunction, IsReservoir, IsTank};
ghost use Rattle.hyd_net.specs.LinkStates.{CanHave};
ghost use Rattle.hyd_net.specs.ProjectAsCompared.{compared_project};
ghost use Rattle.hyd_net.specs.Sound.{HasIds, IsWithinLimits, HasEnds, AreTimes, IsPattern, IsSound};
ghost use Rattle.hyd_net.specs.RoundedFileNumbers.{IsAllMade};
ghost use Rattle.hyd_spec_input.specs.Faults.{IsFault, HasNoFault};
ghost use Rattle.hyd_spec_input.specs.Project.{IsProject};
ghost use Rattle.hyd_theorems_on_input.specs.Example.{text, project};

/// Each node and each link has one ID of 1 to 31 bytes, and no two nodes and no two links have the same one.
pub fn ids()
    ensures { (text : List ℕ) (p : Project) → HasNoFault text → IsProject (rows_in (items_of text)) p → HasIds p }
{}

/// Times are at most 10^8 seconds and steps at least one, in their order; the clock starts within a day.
pub fn times()
    ensures { (text : List ℕ) (p : Project) → HasNoFault text → IsProject (rows_in (items_of text)) p
        → AreTimes p.times }
{}

/// The numbers of the options are in range; where demands depend on pressure, the required pressure exceeds the
/// minimum.
pub fn options()
    ensures { (text : List ℕ) (p : Project) → HasNoFault text → IsProject (rows_in (items_of text)) p
        → HasOptions p.options p.patterns.list }
{}

/// Junctions, reservoirs and tanks are in range, with their demands, emitters, patterns and volume curves.
pub fn nodes()
    ensures junctions { (text : List ℕ) (p : Project) → HasNoFault text → IsProject (rows_in (items_of text)) p
        → All (IsJunction p.options.unit p.patterns.list) p.junctions.list }
    ensures reservoirs { (text : List ℕ) (p : Project) → HasNoFault text → IsProject (rows_in (items_of text)) p
        → All (IsReservoir p.patterns.list) p.reservoirs.list }
    ensures tanks { (text : List ℕ) (p : Project) → HasNoFault text → IsProject (rows_in (items_of text)) p
        → All (IsTank p.shapes.list) p.tanks.list }
{}

/// Both ends of a link are nodes and differ; pipes, pumps and valves are in range, with their patterns and curves.
pub fn links()
    ensures ends { (text : List ℕ) (p : Project) → HasNoFault text → IsProject (rows_in (items_of text)) p
        → All (HasEnds (node_count p)) p.links.list }
    ensures sizes { (text : List ℕ) (p : Project) → HasNoFault text → IsProject (rows_in (items_of text)) p
        → All (λ l. HasSizes p.options.unit p.patterns.list p.bends.list l.kind) p.links.list }
{}

/// Each link starts in a state that it can have.
pub fn states()
    ensures { (text : List ℕ) (p : Project) → HasNoFault text → IsProject (rows_in (items_of text)) p
        → All (λ l. CanHave l.kind l.start) p.links.list }
{}

/// Each control sets a link that is there to a state that it can have, at a moment in range.
pub fn controls()
    ensures { (text : List ℕ) (p : Project) → HasNoFault text → IsProject (rows_in (items_of text)) p
        → All (IsControl p) p.controls.list }
{}

/// What the clauses of rules speak of is there and compared as it can be; actions set links to states that they can
/// have; IDs and priorities are in range.
pub fn rules()
    ensures { (text : List ℕ) (p : Project) → HasNoFault text → IsProject (rows_in (items_of text)) p
        → All (IsRule p) p.rules.list }
{}

/// No table of the network is longer than its limit.
pub fn counts()
    ensures { (text : List ℕ) (p : Project) → HasNoFault text → IsProject (rows_in (items_of text)) p
        → IsWithinLimits p }
{}

/// Each pattern has a multiplier, and each is in range.
pub fn patterns()
    ensures { (text : List ℕ) (p : Project) → HasNoFault text → IsProject (rows_in (items_of text)) p
        → All IsPattern p.patterns.list }
{}

/// Each rounded form is the one that the numbers beside it make, and each valve has one diameter, fully open and in
/// each of its settings.
pub fn made()
    ensures { (text : List ℕ) (p : Project) → HasNoFault text → IsProject (rows_in (items_of text)) p → IsAllMade p }
{}

/// The network of a text without a fault is sound.
pub fn sound()
    ensures { (text : List ℕ) (p : Project) → HasNoFault text → IsProject (rows_in (items_of text)) p → IsSound p }
{}

/// There are such texts and networks: a text with most kinds of rows has no fault, and this is its network.
pub fn example()
    ensures fault { HasNoFault text }
    ensures project { IsProject (rows_in (items_of text)) project }
{}

/// A text has one fault at most: any two have the same line and cause.
pub fn one_fault()
    ensures lines { (text : List ℕ) (line other : ℕ) (cause second : Cause) → IsFault text line cause
        → IsFault text other second → line ≡ other }
    ensures causes { (text : List ℕ) (line other : ℕ) (cause second : Cause) → IsFault text line cause
        → IsFault text other second → cause ≡ second }
{}

/// A text that has a fault isn't one without.
pub fn no_fault_beside()
    ensures { (text : List ℕ) (line : ℕ) (cause : Cause) → IsFault text line cause → HasNoFault text → ⊥ }
{}

/// Each text has a fault or none: one in which nothing is a fault is one without.
pub fn fault_or_none()
    ensures { (text : List ℕ) → ((line : ℕ) (cause : Cause) → IsFault text line cause → ⊥) → HasNoFault text }
{}

/// Rows describe one network: any two of the same rows are the same, as networks are compared (apart from the
/// spare of their lists and from the numbers beside a rounded form, of which it is made).
pub fn one_project()
    ensures { (rows : List Row) (p q : Project) → IsProject rows p → IsProject rows q
        → compared_project p ≡ compared_project q }
{}
