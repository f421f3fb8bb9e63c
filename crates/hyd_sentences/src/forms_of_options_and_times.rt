//! What the words of a line of options or times are.

use crate::forms::{Bound, Form, Slot};
use crate::rows::{Row, is_one_of};
use crate::sentences as say;

/// The options that a line may be about.
pub(crate) const OPTIONS: &str =
    "UNITS HEADLOSS PATTERN DEMAND MINIMUM REQUIRED PRESSURE EMITTER SPECIFIC VISCOSITY DIFFUSIVITY TRIALS ACCURACY UNBALANCED TOLERANCE CHECKFREQ MAXCHECK DAMPLIMIT HEADERROR FLOWCHANGE QUALITY HYDRAULICS MAP";

/// The times that a line may be about.
pub(crate) const TIMES: &str = "DURATION HYDRAULIC PATTERN REPORT RULE START QUALITY STATISTIC";

const UNITS: Form = Form {
    text: say::UNITS_ROW,
    slots: &[
        Slot::Any,
        Slot::Words("CFS GPM MGD IMGD AFD LPS LPM MLD CMH CMD", ""),
    ],
    needed: 2,
    more: false,
};

const HEADLOSS: Form = Form {
    text: say::HEADLOSS_ROW,
    slots: &[Slot::Any, Slot::Words("C-M H-W", "D-W")],
    needed: 2,
    more: false,
};

const DEFAULT_PATTERN: Form = Form {
    text: say::DEFAULT_PATTERN_ROW,
    slots: &[Slot::Any, Slot::Any],
    needed: 2,
    more: false,
};

const DEMAND_MULTIPLIER: Form = Form {
    text: say::DEMAND_OPTION_ROW,
    slots: &[
        Slot::Any,
        Slot::Words("MULTIPLIER MODEL", ""),
        Slot::Number(say::MULTIPLIER, Bound::UpTo(1_000_000)),
    ],
    needed: 3,
    more: false,
};

const DEMAND_MODEL: Form = Form {
    text: say::DEMAND_OPTION_ROW,
    slots: &[
        Slot::Any,
        Slot::Words("MULTIPLIER MODEL", ""),
        Slot::Words("DDA PDA", ""),
    ],
    needed: 3,
    more: false,
};

const PRESSURE_BOUND: Form = Form {
    text: say::PRESSURE_BOUND_ROW,
    slots: &[
        Slot::Any,
        Slot::Words("PRESSURE", ""),
        Slot::Number(say::PRESSURE, Bound::NotNegative),
    ],
    needed: 3,
    more: false,
};

const PRESSURE_UNIT: Form = Form {
    text: say::PRESSURE_ROW,
    slots: &[Slot::Any, Slot::Words("PSI METERS EXPONENT", "KPA")],
    needed: 2,
    more: false,
};

const PRESSURE_EXPONENT: Form = Form {
    text: say::PRESSURE_ROW,
    slots: &[
        Slot::Any,
        Slot::Any,
        Slot::Number(say::EXPONENT, Bound::Free),
    ],
    needed: 3,
    more: false,
};

const EMITTER_EXPONENT: Form = Form {
    text: say::EMITTER_EXPONENT_ROW,
    slots: &[
        Slot::Any,
        Slot::Words("EXPONENT", ""),
        Slot::Number(say::EXPONENT, Bound::Free),
    ],
    needed: 3,
    more: false,
};

const SPECIFIC_GRAVITY: Form = Form {
    text: say::SPECIFIC_GRAVITY_ROW,
    slots: &[
        Slot::Any,
        Slot::Words("GRAVITY", ""),
        Slot::Number(say::GRAVITY, Bound::Free),
    ],
    needed: 3,
    more: false,
};

// Any words behind a first one.
const ANY: Form = Form {
    text: "",
    slots: &[Slot::Any],
    needed: 0,
    more: true,
};

const DURATION: Form = Form {
    text: say::DURATION_ROW,
    slots: &[Slot::Any, Slot::Moment, Slot::Unit],
    needed: 2,
    more: false,
};

const STEP: Form = Form {
    text: say::STEP_ROW,
    slots: &[
        Slot::Any,
        Slot::Words("TIMESTEP", ""),
        Slot::Moment,
        Slot::Unit,
    ],
    needed: 3,
    more: false,
};

const STEP_OR_START: Form = Form {
    text: say::STEP_OR_START_ROW,
    slots: &[
        Slot::Any,
        Slot::Words("TIMESTEP START", ""),
        Slot::Moment,
        Slot::Unit,
    ],
    needed: 3,
    more: false,
};

const START_CLOCK: Form = Form {
    text: say::START_CLOCK_ROW,
    slots: &[
        Slot::Any,
        Slot::Words("CLOCKTIME", ""),
        Slot::Moment,
        Slot::HalfDay,
    ],
    needed: 3,
    more: false,
};

const QUALITY_STEP: Form = Form {
    text: say::STEP_ROW,
    slots: &[Slot::Any, Slot::Words("TIMESTEP", ""), Slot::Any],
    needed: 2,
    more: true,
};

// The options that have two words before their value.
fn form_of_option_pair(row: &Row<'_>) -> Form {
    let first = row.word(0);
    if is_one_of(first, "DEMAND") {
        return if row.has(1, "MODEL") {
            DEMAND_MODEL
        } else {
            DEMAND_MULTIPLIER
        };
    }
    if is_one_of(first, "MINIMUM REQUIRED") {
        return PRESSURE_BOUND;
    }
    if is_one_of(first, "PRESSURE") {
        return if row.has(1, "EXPONENT") {
            PRESSURE_EXPONENT
        } else {
            PRESSURE_UNIT
        };
    }
    if is_one_of(first, "EMITTER") {
        return EMITTER_EXPONENT;
    }
    if is_one_of(first, "SPECIFIC") {
        return SPECIFIC_GRAVITY;
    }
    ANY
}

/// What the words of a line of options are.
pub(crate) fn form_of_option(row: &Row<'_>) -> Form {
    let first = row.word(0);
    if is_one_of(first, "UNITS") {
        return UNITS;
    }
    if is_one_of(first, "HEADLOSS") {
        return HEADLOSS;
    }
    if is_one_of(first, "PATTERN") {
        return DEFAULT_PATTERN;
    }
    form_of_option_pair(row)
}

/// What the words of a line of times are.
pub(crate) fn form_of_time(row: &Row<'_>) -> Form {
    let first = row.word(0);
    if is_one_of(first, "DURATION") {
        return DURATION;
    }
    if is_one_of(first, "HYDRAULIC RULE") {
        return STEP;
    }
    if is_one_of(first, "PATTERN REPORT") {
        return STEP_OR_START;
    }
    if is_one_of(first, "START") {
        return START_CLOCK;
    }
    if is_one_of(first, "QUALITY") {
        return QUALITY_STEP;
    }
    ANY
}
