//! What a link or an emitter passes at least and at most.
#![tactic(auto)]

ghost use Rattle.std.specs.Prelude.{◌≡◌, IfSome, IfNone, pos};
ghost use Rattle.hyd_spec.specs.Law as exact;
ghost use Rattle.hyd_spec_witnesses.specs.EnclosingFunctionsAtScale.{IsDifference, IsInRange};
ghost use Rattle.hyd_law.specs.LinkLaws.{IsSoundLink, LinkAccepts};
ghost use Rattle.hyd_period_network.specs.ExactLaw.{exact_law};
ghost use Rattle.hyd_period_network.specs.LawsInSettings.{Stands, restricted};
ghost use Rattle.hyd_laws_at_scale.specs.Scales.{parts_of};
ghost use Rattle.hyd_laws_at_scale.specs.Windows.{IsWindow, IsAnswer};

use crate::composed_windows::{capped, one_way, restricted};
use crate::ranges::in_range;
use crate::scale::Scale;
use crate::simple_windows::{linear, power, pumped, quadratic, shut};
use crate::straight_lines::bent;
use crate::windows::Window;
use hyd_law::{LinkLaw, Quad};

// What a law passes at a head difference in range.
fn window_at(law: &LinkLaw, scale: Scale, d: i64) -> Option<Window>
    requires sound { IsSoundLink law.now }
    requires accepts { LinkAccepts law.now (pos 0) }
    requires difference { IsDifference d }
    ensures { IsAnswer (parts_of scale) (exact_law law.now) d result }
{
    match law {
        LinkLaw::Shut(_) => Some(shut()),
        LinkLaw::Quad(law) => quadratic(&law.cap, scale, d),
        LinkLaw::Linear(_) => Some(linear(d)),
        LinkLaw::QuadOneWay(law) => one_way(law.forward, quadratic(&law.inner.cap, scale, d)),
        LinkLaw::LinearOneWay(law) => one_way(law.forward, Some(linear(d))),
        LinkLaw::Pump(law) => one_way(law.forward, pumped(&law.inner, scale, d)),
        LinkLaw::Limit(law) => capped(law.cap, scale, quadratic(&law.inner.cap, scale, d)),
        LinkLaw::LinearLimit(law) => capped(law.cap, scale, Some(linear(d))),
        LinkLaw::LimitOneWay(law) => one_way(
            law.forward,
            capped(
                law.inner.cap,
                scale,
                quadratic(&law.inner.inner.cap, scale, d),
            ),
        ),
        LinkLaw::LinearLimitOneWay(law) => one_way(
            law.forward,
            capped(law.inner.cap, scale, Some(linear(d))),
        ),
        LinkLaw::Power(law) => power(&law.cap, scale, d),
        LinkLaw::PowerOneWay(law) => one_way(law.forward, power(&law.inner.cap, scale, d)),
        LinkLaw::Bent(law) => Some(bent(law, scale, d)),
    }
}

/// The low and the high flow of a link's own law, whatever the tanks at its ends allow, at a head difference in parts
/// of a head tick. There are none exactly where the law isn't in range.
pub fn own_window(law: &LinkLaw, scale: Scale, d: i128) -> Option<Window>
    requires { Stands law.now (exact_law law.now) }
    ensures some { IfSome result (IsWindow (parts_of scale) (exact_law law.now) d) }
    ensures none { IfNone result (IsInRange (parts_of scale) (exact_law law.now) d → ⊥) }
{
    let inside = in_range(d)?;
    window_at(law, scale, inside)
}

/// The low and the high flow of a link between tanks that may forbid a way, by its own law, at a head difference in
/// parts of a head tick. There are none exactly where the law isn't in range.
pub fn link_window(
    own: &LinkLaw,
    no_forward: bool,
    no_reverse: bool,
    scale: Scale,
    d: i128,
) -> Option<Window>
    requires { Stands own.now (exact_law own.now) }
    ensures some { IfSome result (IsWindow (parts_of scale) (restricted no_forward no_reverse (exact_law own.now)) d) }
    ensures none { IfNone result (IsInRange (parts_of scale) (restricted no_forward no_reverse (exact_law own.now)) d
        → ⊥) }
{
    let inside = in_range(d)?;
    let window = window_at(own, scale, inside);
    let one_way = restricted(no_forward, false, window);
    restricted(no_reverse, true, one_way)
}

/// The low and the high flow of an emitter at a pressure in parts of a head tick. There are none exactly where its law
/// isn't in range.
pub fn emitter_window(emitter: &Quad, scale: Scale, pressure: i128) -> Option<Window>
    ensures some { IfSome result (IsWindow (parts_of scale) (exact.QuadraticLaw emitter.now.cap) pressure) }
    ensures none { IfNone result (IsInRange (parts_of scale) (exact.QuadraticLaw emitter.now.cap) pressure → ⊥) }
{
    let inside = in_range(pressure)?;
    quadratic(&emitter.cap, scale, inside)
}
