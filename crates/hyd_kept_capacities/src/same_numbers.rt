//! Whether numbers of a file are the same.
#![tactic(auto)]

ghost use Rattle.std.specs.Prelude.{◌≡◌};
ghost use Rattle.std.specs.Bool.{OnFalse};

use hyd_num::Decimal;

/// Whether one number isn't the other.
pub(crate) fn differ(one: Decimal, other: Decimal) -> bool
    ensures { OnFalse result (one ≡ other) }
{
    if one == other {
        return false;
    }
    true
}

/// Whether only one of two files is in US units.
pub(crate) fn differ_in_units(one: bool, other: bool) -> bool
    ensures { OnFalse result (one ≡ other) }
{
    if one == other {
        return false;
    }
    true
}
