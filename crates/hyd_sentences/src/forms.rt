//! What the words of a row are, from left to right, by section, and the headings of sections.

use crate::sentences as say;
use hyd_spec_lines::{Region, Section};

/// A heading, and what it opens.
#[derive(Clone, Copy)]
pub(crate) struct Heading {
    /// Its text.
    pub text: &'static str,
    /// What stands behind it.
    pub region: Region,
}

/// The range of a number, in the file's units, where it needs none of the file's other lines.
#[derive(Clone, Copy)]
pub(crate) enum Bound {
    /// None, or one in another unit.
    Free,
    /// At least 0.
    NotNegative,
    /// From 0 to this.
    UpTo(u32),
    /// Above 0, and at most this.
    Above0To(u32),
    /// At most this in magnitude.
    Within(u32),
}

/// What an ID has to name.
#[derive(Clone, Copy)]
pub(crate) enum Named {
    /// A node of any kind.
    Node,
    /// A junction.
    Junction,
    /// A node of the kind that the word before it says.
    NodeSaid,
    /// A link of any kind.
    Link,
    /// A link of the kind that the word before it says.
    LinkSaid,
    /// A pattern.
    Pattern,
    /// A curve, or `*` for none.
    Curve,
}

/// What a word of a row is.
#[derive(Clone, Copy)]
pub(crate) enum Slot {
    /// Any word, or the row's own ID.
    Any,
    /// An ID.
    Name(Named),
    /// A number: what it is, and its range.
    Number(&'static str, Bound),
    /// The roughness of a pipe.
    Roughness,
    /// OPEN, CLOSED or a number.
    State,
    /// A minor loss coefficient, or a status where it is the last word.
    MinorOrStatus,
    /// One of the keywords of the first list, which are parted by spaces; those of the second are known, and something
    /// else is said of them.
    Words(&'static str, &'static str),
    /// A time, without its unit.
    Moment,
    /// The unit of the time before it.
    Unit,
    /// AM or PM.
    HalfDay,
}

/// What the words of a row are.
#[derive(Clone, Copy)]
pub(crate) struct Form {
    /// The row in words.
    pub text: &'static str,
    /// Its words.
    pub slots: &'static [Slot],
    /// How many of them are needed.
    pub needed: usize,
    /// Whether more words like the last one may stand behind it.
    pub more: bool,
}

/// All headings.
pub(crate) const HEADINGS: &[Heading] = &[
    Heading {
        text: "[TITLE]",
        region: Region::PassedOver,
    },
    Heading {
        text: "[JUNCTIONS]",
        region: Region::Read(Section::Junctions),
    },
    Heading {
        text: "[RESERVOIRS]",
        region: Region::Read(Section::Reservoirs),
    },
    Heading {
        text: "[TANKS]",
        region: Region::Read(Section::Tanks),
    },
    Heading {
        text: "[PIPES]",
        region: Region::Read(Section::Pipes),
    },
    Heading {
        text: "[PUMPS]",
        region: Region::Read(Section::Pumps),
    },
    Heading {
        text: "[VALVES]",
        region: Region::Read(Section::Valves),
    },
    Heading {
        text: "[DEMANDS]",
        region: Region::Read(Section::Demands),
    },
    Heading {
        text: "[EMITTERS]",
        region: Region::Read(Section::Emitters),
    },
    Heading {
        text: "[CURVES]",
        region: Region::Read(Section::Curves),
    },
    Heading {
        text: "[PATTERNS]",
        region: Region::Read(Section::Patterns),
    },
    Heading {
        text: "[STATUS]",
        region: Region::Read(Section::Status),
    },
    Heading {
        text: "[CONTROLS]",
        region: Region::Read(Section::Controls),
    },
    Heading {
        text: "[RULES]",
        region: Region::Read(Section::Rules),
    },
    Heading {
        text: "[OPTIONS]",
        region: Region::Read(Section::Options),
    },
    Heading {
        text: "[TIMES]",
        region: Region::Read(Section::Times),
    },
    Heading {
        text: "[TAGS]",
        region: Region::PassedOver,
    },
    Heading {
        text: "[ENERGY]",
        region: Region::PassedOver,
    },
    Heading {
        text: "[QUALITY]",
        region: Region::PassedOver,
    },
    Heading {
        text: "[SOURCES]",
        region: Region::PassedOver,
    },
    Heading {
        text: "[REACTIONS]",
        region: Region::PassedOver,
    },
    Heading {
        text: "[MIXING]",
        region: Region::PassedOver,
    },
    Heading {
        text: "[REPORT]",
        region: Region::PassedOver,
    },
    Heading {
        text: "[COORDINATES]",
        region: Region::PassedOver,
    },
    Heading {
        text: "[VERTICES]",
        region: Region::PassedOver,
    },
    Heading {
        text: "[LABELS]",
        region: Region::PassedOver,
    },
    Heading {
        text: "[BACKDROP]",
        region: Region::PassedOver,
    },
    Heading {
        text: "[END]",
        region: Region::Ended,
    },
];

/// ID, elevation, demand, pattern.
pub(crate) const JUNCTION: Form = Form {
    text: say::JUNCTION_ROW,
    slots: &[
        Slot::Any,
        Slot::Number(say::ELEVATION, Bound::Free),
        Slot::Number(say::DEMAND, Bound::Free),
        Slot::Name(Named::Pattern),
    ],
    needed: 2,
    more: false,
};

/// ID, head, pattern.
pub(crate) const RESERVOIR: Form = Form {
    text: say::RESERVOIR_ROW,
    slots: &[
        Slot::Any,
        Slot::Number(say::HEAD, Bound::Free),
        Slot::Name(Named::Pattern),
    ],
    needed: 2,
    more: false,
};

/// ID, bottom, three levels, diameter, minimum volume, curve, overflow.
pub(crate) const TANK: Form = Form {
    text: say::TANK_ROW,
    slots: &[
        Slot::Any,
        Slot::Number(say::BOTTOM, Bound::Free),
        Slot::Number(say::INITIAL_LEVEL, Bound::NotNegative),
        Slot::Number(say::MINIMUM_LEVEL, Bound::NotNegative),
        Slot::Number(say::MAXIMUM_LEVEL, Bound::NotNegative),
        Slot::Number(say::DIAMETER, Bound::UpTo(1_000)),
        Slot::Number(say::MINIMUM_VOLUME, Bound::NotNegative),
        Slot::Name(Named::Curve),
        Slot::Words("NO YES", ""),
    ],
    needed: 6,
    more: false,
};

/// ID, two nodes, length, diameter, roughness, minor loss, status.
pub(crate) const PIPE: Form = Form {
    text: say::PIPE_ROW,
    slots: &[
        Slot::Any,
        Slot::Name(Named::Node),
        Slot::Name(Named::Node),
        Slot::Number(say::LENGTH, Bound::Above0To(1_000_000)),
        Slot::Number(say::DIAMETER, Bound::Above0To(10_000)),
        Slot::Roughness,
        Slot::Number(say::MINOR_LOSS, Bound::UpTo(1_000_000)),
        Slot::Words("OPEN CLOSED CV", ""),
    ],
    needed: 6,
    more: false,
};

/// The same with seven words, of which the last is a minor loss or a status.
pub(crate) const PIPE_OF_SEVEN: Form = Form {
    text: say::PIPE_ROW,
    slots: &[
        Slot::Any,
        Slot::Name(Named::Node),
        Slot::Name(Named::Node),
        Slot::Number(say::LENGTH, Bound::Above0To(1_000_000)),
        Slot::Number(say::DIAMETER, Bound::Above0To(10_000)),
        Slot::Roughness,
        Slot::MinorOrStatus,
    ],
    needed: 6,
    more: false,
};

/// ID and two nodes of a pump; the pairs behind them are looked at by themselves.
pub(crate) const PUMP: Form = Form {
    text: say::PUMP_ROW,
    slots: &[
        Slot::Any,
        Slot::Name(Named::Node),
        Slot::Name(Named::Node),
        Slot::Any,
    ],
    needed: 5,
    more: true,
};

/// ID, two nodes, diameter, type, setting, minor loss, of a throttle control valve.
pub(crate) const THROTTLE: Form = Form {
    text: say::VALVE_ROW,
    slots: &[
        Slot::Any,
        Slot::Name(Named::Node),
        Slot::Name(Named::Node),
        Slot::Number(say::DIAMETER, Bound::Above0To(10_000)),
        Slot::Words("TCV FCV GPV", "PRV PSV PBV"),
        Slot::Number(say::SETTING, Bound::UpTo(1_000_000)),
        Slot::Number(say::MINOR_LOSS, Bound::UpTo(1_000_000)),
    ],
    needed: 6,
    more: false,
};

/// The same of a general purpose valve, whose setting is a curve.
pub(crate) const GENERAL_VALVE: Form = Form {
    text: say::VALVE_ROW,
    slots: &[
        Slot::Any,
        Slot::Name(Named::Node),
        Slot::Name(Named::Node),
        Slot::Number(say::DIAMETER, Bound::Above0To(10_000)),
        Slot::Words("TCV FCV GPV", "PRV PSV PBV"),
        Slot::Name(Named::Curve),
        Slot::Number(say::MINOR_LOSS, Bound::UpTo(1_000_000)),
    ],
    needed: 6,
    more: false,
};

/// The same of any other valve, whose setting is a flow.
pub(crate) const VALVE: Form = Form {
    text: say::VALVE_ROW,
    slots: &[
        Slot::Any,
        Slot::Name(Named::Node),
        Slot::Name(Named::Node),
        Slot::Number(say::DIAMETER, Bound::Above0To(10_000)),
        Slot::Words("TCV FCV GPV", "PRV PSV PBV"),
        Slot::Number(say::SETTING, Bound::NotNegative),
        Slot::Number(say::MINOR_LOSS, Bound::UpTo(1_000_000)),
    ],
    needed: 6,
    more: false,
};

/// Junction, demand, pattern, category.
pub(crate) const DEMAND: Form = Form {
    text: say::DEMAND_ROW,
    slots: &[
        Slot::Name(Named::Junction),
        Slot::Number(say::DEMAND, Bound::Free),
        Slot::Name(Named::Pattern),
        Slot::Any,
    ],
    needed: 2,
    more: false,
};

/// Junction, coefficient.
pub(crate) const EMITTER: Form = Form {
    text: say::EMITTER_ROW,
    slots: &[
        Slot::Name(Named::Junction),
        Slot::Number(say::COEFFICIENT, Bound::UpTo(1_000_000)),
    ],
    needed: 2,
    more: false,
};

/// ID, x, y.
pub(crate) const CURVE: Form = Form {
    text: say::CURVE_ROW,
    slots: &[
        Slot::Any,
        Slot::Number(say::X, Bound::Free),
        Slot::Number(say::Y, Bound::Free),
    ],
    needed: 3,
    more: false,
};

/// ID and multipliers.
pub(crate) const PATTERN: Form = Form {
    text: say::PATTERN_ROW,
    slots: &[
        Slot::Any,
        Slot::Number(say::MULTIPLIER, Bound::Within(1_000_000)),
    ],
    needed: 2,
    more: true,
};

/// Link and state.
pub(crate) const STATUS: Form = Form {
    text: say::STATUS_ROW,
    slots: &[Slot::Name(Named::Link), Slot::State],
    needed: 2,
    more: false,
};

/// A control by a tank's level.
pub(crate) const CONTROL_BY_LEVEL: Form = Form {
    text: say::CONTROL_ROW,
    slots: &[
        Slot::Words("LINK PIPE PUMP VALVE", ""),
        Slot::Name(Named::LinkSaid),
        Slot::State,
        Slot::Words("IF AT", ""),
        Slot::Words("NODE TANK JUNCTION RESERVOIR", ""),
        Slot::Name(Named::NodeSaid),
        Slot::Words("ABOVE BELOW", ""),
        Slot::Number(say::LEVEL, Bound::Free),
    ],
    needed: 8,
    more: false,
};

/// A control by the time.
pub(crate) const CONTROL_BY_TIME: Form = Form {
    text: say::CONTROL_ROW,
    slots: &[
        Slot::Words("LINK PIPE PUMP VALVE", ""),
        Slot::Name(Named::LinkSaid),
        Slot::State,
        Slot::Words("IF AT", ""),
        Slot::Words("TIME CLOCKTIME", ""),
        Slot::Moment,
        Slot::Unit,
    ],
    needed: 6,
    more: false,
};

/// A control by the time of day.
pub(crate) const CONTROL_BY_CLOCK: Form = Form {
    text: say::CONTROL_ROW,
    slots: &[
        Slot::Words("LINK PIPE PUMP VALVE", ""),
        Slot::Name(Named::LinkSaid),
        Slot::State,
        Slot::Words("IF AT", ""),
        Slot::Words("TIME CLOCKTIME", ""),
        Slot::Moment,
        Slot::HalfDay,
    ],
    needed: 6,
    more: false,
};
