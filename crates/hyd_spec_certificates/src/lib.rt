//! Definitions alone: intervals, what a certificate claims, which matters it decides, and when a record of one is
//! valid. No function here has a body.
#![tactic(auto)]

/// The end of the box in which heads are sought, either way, in head ticks: 100 km.
pub const BOX_LIMIT: i64 = 1_000_000_000_000_000_000;

/// Which heads the tanks have in a comparison.
#[derive(Clone, Copy, Drop)]
pub enum Problem {
    /// Each tank at the end of its level interval that lies on the side of the vector.
    Main,
    /// The tank of this number at the other end, all others as in `Main`.
    Pinned(u32),
}

/// On which side of the heads of every assignment a vector lies (supersolutions and subsolutions of
/// Ortega and Rheinboldt 1970).
#[derive(Clone, Copy, Drop)]
pub enum Side {
    /// Above: on balance water flows out of every junction.
    Upper,
    /// Below: on balance water flows into every junction.
    Lower,
}

/// A junction, by its number, that is held at a head: of it is asked that it stands at that head, and not that its
/// balance passes (Dirichlet condition at one node of the network).
#[derive(Clone, Copy, Drop)]
pub struct HeldJunction {
    /// Its number among the junctions, counted from 0.
    pub junction: u32,
    /// The head that it is held at, in head ticks.
    pub head: i64,
}

/// All heads or levels from one to another, both in head ticks of 10^-13 m: heads above the datum, levels above the
/// bottom of their tank.
#[derive(Clone, Copy, Drop)]
pub struct LevelSpan {
    /// The least of them.
    pub lo: i64,
    /// The greatest.
    pub hi: i64,
}

/// What holds of all points of the intervals, of none, or is open (Kleene 1952, strong three-valued logic).
#[derive(Clone, Copy, Drop)]
pub enum Verdict {
    /// It holds.
    Yes,
    /// It doesn't.
    No,
    /// It is open.
    Unknown,
}

/// What a period's intervals leave of a rule at an instant.
#[derive(Clone, Copy, Drop)]
pub enum Truth {
    /// It is true, whatever the exact values are.
    True,
    /// It is false, whatever they are.
    False,
    /// It is open.
    Open {
        /// The first of its clauses that is open by itself, counted from 0.
        clause: u32,
        /// At most what that clause measures, in head or flow ticks, of a flow its magnitude.
        lo: i128,
        /// At least it.
        hi: i128,
    },
}

/// The status of a link as the report prints it.
#[derive(Clone, Copy, Drop)]
pub enum StatusWord {
    Open,
    Closed,
    /// A valve that holds its setting.
    Active,
    /// The intervals leave the status undecided.
    Unsure,
}

/// What a tank reaches at the end of a period (EPANET 2.2 User Manual, chapter 3, tanks and controls).
#[derive(Clone, Copy, Drop)]
pub enum EventKind {
    /// Its maximum level, at which it is full.
    Full,
    /// Its minimum level, at which it is empty.
    Empty,
    /// The level of the simple control of this number, counted from 0.
    Control(u32),
}

/// An event: a tank reaches a level at the end of a period.
#[derive(Clone, Copy, Drop)]
pub struct Event {
    /// The number of the tank among the tanks, counted from 0.
    pub tank: u32,
    /// What it reaches.
    pub what: EventKind,
}

/// Why a run stops at a period (this program's own). Periods, junctions, tanks, rules, clauses and controls count from
/// 0.
#[derive(Clone, Copy, Drop)]
pub enum StopCause {
    /// No vector is a certificate of the problem and side; a junction is named.
    NoCertificate {
        period: u32,
        problem: Problem,
        side: Side,
        junction: u32,
    },
    /// The first tank whose state at the end of the period is open, and the ends of its level there in head ticks.
    TankOpen {
        period: u32,
        tank: u32,
        lo: i128,
        hi: i128,
    },
    /// The first rule that is open at an instant, its first open clause, and the ends of what that clause measures in
    /// head or flow ticks.
    RuleOpen {
        period: u32,
        rule: u32,
        clause: u32,
        lo: i128,
        hi: i128,
    },
    /// The first level control that is open at the end of the period, and the ends of its tank's level there in head
    /// ticks.
    ControlOpen {
        period: u32,
        control: u32,
        lo: i128,
        hi: i128,
    },
    /// The end of the period is open between two seconds after its start.
    EventOpen {
        period: u32,
        earliest: u32,
        latest: u32,
    },
    /// So many rounds don't lead to a certificate of the problem and side.
    RoundsSpent {
        period: u32,
        problem: Problem,
        side: Side,
        rounds: u32,
    },
    /// The first junction whose demand is out of range, and that demand in flow ticks.
    Demand {
        period: u32,
        junction: u32,
        value: i128,
    },
}

/// Why a record of a certificate is refused (this program's own). The period is the number of the record that was due.
#[derive(Clone, Copy, Drop)]
pub enum CertRefused {
    /// Its number or its time isn't the one that was due.
    Place {
        period: u32,
    },
    /// A demand of the period is out of range.
    Demand {
        period: u32,
    },
    /// The vector of the problem and side isn't a certificate: it fails first at the junction.
    Fails {
        period: u32,
        problem: Problem,
        side: Side,
        junction: u32,
    },
    /// A matter of the period isn't decided.
    Open {
        period: u32,
    },
    /// Its length isn't the decided one.
    Length {
        period: u32,
    },
    /// It stands after the record at the end of the run.
    After {
        period: u32,
    },
}
