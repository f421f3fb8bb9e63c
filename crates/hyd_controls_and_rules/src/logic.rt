//! Three-valued logic (Kleene 1952, strong).
#![tactic(auto)]

ghost use Rattle.std.specs.Prelude.{◌≡◌};
ghost use Rattle.hyd_spec_certificates.specs.ThreeValuedLogic.{is_yes, is_unknown, at_both_ends, either, both};

use hyd_spec_certificates::Verdict;

/// What is so at both ends of an interval is so, and what differs is open.
pub(crate) fn at_both_ends(below: bool, above: bool) -> Verdict
    ensures { result ≡ at_both_ends below above }
{
    match (below, above) {
        (true, true) => Verdict::Yes,
        (false, false) => Verdict::No,
        _ => Verdict::Unknown,
    }
}

/// It holds.
pub(crate) fn is_yes(verdict: Verdict) -> bool
    ensures { result ≡ is_yes verdict }
{
    matches!(verdict, Verdict::Yes)
}

/// It is open.
pub(crate) fn is_unknown(verdict: Verdict) -> bool
    ensures { result ≡ is_unknown verdict }
{
    matches!(verdict, Verdict::Unknown)
}

/// One of two holds.
pub(crate) fn either(one: Verdict, other: Verdict) -> Verdict
    ensures { result ≡ either one other }
{
    match (one, other) {
        (Verdict::Yes, _) | (_, Verdict::Yes) => Verdict::Yes,
        (Verdict::No, Verdict::No) => Verdict::No,
        _ => Verdict::Unknown,
    }
}

/// Both hold.
pub(crate) fn both(one: Verdict, other: Verdict) -> Verdict
    ensures { result ≡ both one other }
{
    match (one, other) {
        (Verdict::No, _) | (_, Verdict::No) => Verdict::No,
        (Verdict::Yes, Verdict::Yes) => Verdict::Yes,
        _ => Verdict::Unknown,
    }
}
