//! What the words of a line of a rule are.

use crate::forms::{Bound, Form, Named, Slot};
use crate::rows::{Row, is_one_of};
use crate::sentences as say;

// The words before an object, and the relations of quantities.
const OBJECTS: &str = "SYSTEM NODE JUNCTION TANK RESERVOIR LINK PIPE PUMP VALVE";

const ORDERS: &str = "< <= > >= ABOVE BELOW";

const EQUALITIES: &str = "= <> IS NOT";

const ALL_RELATIONS: &str = "= <> < <= > >= IS NOT ABOVE BELOW";

const UNSUPPORTED: &str = "DEMAND FILLTIME DRAINTIME";

const NAME: Form = Form {
    text: say::RULE_NAME_ROW,
    slots: &[Slot::Any, Slot::Any],
    needed: 2,
    more: false,
};

const PRIORITY: Form = Form {
    text: say::PRIORITY_ROW,
    slots: &[Slot::Any, Slot::Number(say::PRIORITY, Bound::Free)],
    needed: 2,
    more: false,
};

// A clause on an object that isn't known.
const CLAUSE: Form = Form {
    text: say::CLAUSE_ROW,
    slots: &[Slot::Any, Slot::Words(OBJECTS, ""), Slot::Any],
    needed: 5,
    more: true,
};

const NODE_CLAUSE: Form = Form {
    text: say::CLAUSE_ROW,
    slots: &[
        Slot::Any,
        Slot::Any,
        Slot::Name(Named::NodeSaid),
        Slot::Words("HEAD PRESSURE", UNSUPPORTED),
        Slot::Words(ORDERS, EQUALITIES),
        Slot::Number(say::VALUE, Bound::Free),
    ],
    needed: 6,
    more: false,
};

const TANK_CLAUSE: Form = Form {
    text: say::CLAUSE_ROW,
    slots: &[
        Slot::Any,
        Slot::Any,
        Slot::Name(Named::NodeSaid),
        Slot::Words("LEVEL HEAD PRESSURE", UNSUPPORTED),
        Slot::Words(ORDERS, EQUALITIES),
        Slot::Number(say::VALUE, Bound::Free),
    ],
    needed: 6,
    more: false,
};

const RESERVOIR_CLAUSE: Form = Form {
    text: say::CLAUSE_ROW,
    slots: &[
        Slot::Any,
        Slot::Any,
        Slot::Name(Named::NodeSaid),
        Slot::Words("HEAD", UNSUPPORTED),
        Slot::Words(ORDERS, EQUALITIES),
        Slot::Number(say::VALUE, Bound::Free),
    ],
    needed: 6,
    more: false,
};

// A clause on the flow of a link, or on the setting of a pump or a valve.
const LINK_CLAUSE: Form = Form {
    text: say::CLAUSE_ROW,
    slots: &[
        Slot::Any,
        Slot::Any,
        Slot::Name(Named::LinkSaid),
        Slot::Words("FLOW STATUS", UNSUPPORTED),
        Slot::Words(ORDERS, EQUALITIES),
        Slot::Number(say::VALUE, Bound::Free),
    ],
    needed: 6,
    more: false,
};

const SETTING_CLAUSE: Form = Form {
    text: say::CLAUSE_ROW,
    slots: &[
        Slot::Any,
        Slot::Any,
        Slot::Name(Named::LinkSaid),
        Slot::Words("FLOW STATUS SETTING", UNSUPPORTED),
        Slot::Words(ORDERS, EQUALITIES),
        Slot::Number(say::VALUE, Bound::Free),
    ],
    needed: 6,
    more: false,
};

const STATUS_CLAUSE: Form = Form {
    text: say::CLAUSE_ROW,
    slots: &[
        Slot::Any,
        Slot::Any,
        Slot::Name(Named::LinkSaid),
        Slot::Any,
        Slot::Words("= <> IS NOT", ""),
        Slot::Words("OPEN CLOSED ACTIVE", ""),
    ],
    needed: 6,
    more: false,
};

const TIME_CLAUSE: Form = Form {
    text: say::CLAUSE_ROW,
    slots: &[
        Slot::Any,
        Slot::Any,
        Slot::Words("TIME CLOCKTIME", UNSUPPORTED),
        Slot::Words(ALL_RELATIONS, ""),
        Slot::Moment,
        Slot::Unit,
    ],
    needed: 5,
    more: false,
};

const CLOCK_CLAUSE: Form = Form {
    text: say::CLAUSE_ROW,
    slots: &[
        Slot::Any,
        Slot::Any,
        Slot::Any,
        Slot::Words(ALL_RELATIONS, ""),
        Slot::Moment,
        Slot::HalfDay,
    ],
    needed: 5,
    more: false,
};

const PIPE_ACTION: Form = Form {
    text: say::ACTION_ROW,
    slots: &[
        Slot::Any,
        Slot::Words("LINK PIPE PUMP VALVE", ""),
        Slot::Name(Named::LinkSaid),
        Slot::Words("STATUS", ""),
        Slot::Words("IS =", ""),
        Slot::Words("OPEN CLOSED", ""),
    ],
    needed: 6,
    more: false,
};

const STATUS_ACTION: Form = Form {
    text: say::ACTION_ROW,
    slots: &[
        Slot::Any,
        Slot::Any,
        Slot::Name(Named::LinkSaid),
        Slot::Words("STATUS SETTING", ""),
        Slot::Words("IS =", ""),
        Slot::Words("OPEN CLOSED", ""),
    ],
    needed: 6,
    more: false,
};

const SETTING_ACTION: Form = Form {
    text: say::ACTION_ROW,
    slots: &[
        Slot::Any,
        Slot::Any,
        Slot::Name(Named::LinkSaid),
        Slot::Any,
        Slot::Words("IS =", ""),
        Slot::Number(say::SETTING, Bound::Free),
    ],
    needed: 6,
    more: false,
};

// A clause on a link.
fn form_of_link_clause(row: &Row<'_>) -> Form {
    if row.has(3, "STATUS") {
        return STATUS_CLAUSE;
    }
    if is_one_of(row.word(1), "PUMP VALVE") {
        return SETTING_CLAUSE;
    }
    LINK_CLAUSE
}

// A clause on the time.
fn form_of_system_clause(row: &Row<'_>) -> Form {
    if row.has(2, "CLOCKTIME") {
        return CLOCK_CLAUSE;
    }
    TIME_CLAUSE
}

// A clause.
fn form_of_clause(row: &Row<'_>) -> Form {
    let object = row.word(1);
    if is_one_of(object, "NODE JUNCTION") {
        return NODE_CLAUSE;
    }
    if is_one_of(object, "TANK") {
        return TANK_CLAUSE;
    }
    if is_one_of(object, "RESERVOIR") {
        return RESERVOIR_CLAUSE;
    }
    if is_one_of(object, "LINK PIPE PUMP VALVE") {
        return form_of_link_clause(row);
    }
    if is_one_of(object, "SYSTEM") {
        return form_of_system_clause(row);
    }
    CLAUSE
}

// An action.
fn form_of_action(row: &Row<'_>) -> Form {
    if !is_one_of(row.word(1), "PUMP VALVE") {
        return PIPE_ACTION;
    }
    if row.has(3, "SETTING") {
        return SETTING_ACTION;
    }
    STATUS_ACTION
}

/// What the words of a line are, where an AND line holds an action or not.
pub(crate) fn form_of_rule_line(row: &Row<'_>, acting: bool) -> Form {
    let first = row.word(0);
    if is_one_of(first, "RULE") {
        return NAME;
    }
    if is_one_of(first, "PRIORITY") {
        return PRIORITY;
    }
    if is_one_of(first, "THEN ELSE") || (acting && is_one_of(first, "AND")) {
        return form_of_action(row);
    }
    form_of_clause(row)
}
