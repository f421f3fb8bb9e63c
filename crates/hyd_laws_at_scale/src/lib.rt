//! Laws at a scale: what a link, a demand or an emitter passes at least and at most at a head difference or a pressure
//! of parts of a tick, or that it isn't in range there.
#![tactic(auto)]

mod composed_windows;
mod demand_windows;
mod link_windows;
mod parts;
mod quadratic;
mod ranges;
mod scale;
mod simple_windows;
mod straight_lines;
mod windows;

pub use demand_windows::demand_window;
pub use link_windows::{emitter_window, link_window, own_window};
pub use scale::Scale;
pub use windows::Window;
