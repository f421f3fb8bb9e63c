//! The gradient method.
#![tactic(auto)]

ghost use Rattle.std.specs.Prelude.{None};
ghost use Rattle.hyd_period_network.specs.SoundNets.{HasProblem};

use crate::convergence::Progress;
use crate::earlier_middles::EarlierMiddles;
use crate::finder::Finder;
use crate::flow_form::FlowForm;
use crate::flows::total_of;
use crate::jacobian::Tangent;
use crate::line_search::Course;
use crate::mending::Mender;
use crate::number_lists::{clear, copy, fill, multiply, number_at};
use crate::raises::NoValue;
use crate::weights_of_misses::{greatest_ratio, put_weights};
use hyd_period_network::Net;
use hyd_spec_certificates::{Problem, Side};
use hyd_tight_starts::Descent;
use std::alloc::{AllocError as OutOfMemory, Global};

/// The ratio of misses to weights from which on flows and heads are moved together. Between the problems and sides of a
/// period it is a hundredth of that, between periods a hundred times that.
const FAR: f64 = 100_000.0;

/// The most steps of flows and heads together. Some laws let them go round in circles.
const FLOW_STEPS: u32 = 20;

/// The ratio at which they have come near enough.
const ENOUGH: f64 = 16.0;

/// The most steps to the middle solution by heads alone.
const MIDDLE_STEPS: u32 = 150;

/// The ratio from which on the last factor is near enough for steps by it.
const NEAR: f64 = 1000.0;

/// The step from which on a step that falls short is doubled. Before it that costs steps where heads fall far.
const FARTHER_FROM: u32 = 20;

/// The most steps to heads that balance loads.
const LOADED_STEPS: u32 = 8;

/// So many of these may come to no fewer junctions that fall short.
const VAIN_STEPS: u32 = 2;

/// How often loads are made greater.
const LOADS: u32 = 35;

/// How often they are first made little greater; after that they are doubled.
const SMALL_LOADS: u32 = 10;

const LITTLE_MORE: f64 = 1.125;

/// Finds certificates by the gradient method: Newton steps on whole head ticks to heads at which the junctions' flows
/// balance (Todini and Pilati 1988), then to heads at which a little is left over at each junction, or lacks, until
/// the check of certificates passes.
#[derive(Drop)]
pub struct Gradient {
    junctions: u32,
    nodes: u32,
    links: u32,
    tangent: Tangent,
    course: Course,
    form: FlowForm,
    descent: Descent,
    /// Heads of the junctions near their balance, of the last problem and side.
    middle: Vec<i64>,
    /// The weights of the junctions there.
    weights: Vec<f64>,
    mender: Mender,
    /// Heads of the junctions that are tried as a certificate.
    proposal: Vec<i64>,
    /// The middles of earlier periods.
    earlier: EarlierMiddles,
    /// Whether there was a problem before.
    begun: bool,
}

// How much greater loads are made after so many.
fn growth(count: u32) -> f64 {
    if count < SMALL_LOADS {
        LITTLE_MORE
    } else {
        2.0
    }
}

impl Gradient {
    /// Takes all memory that finding certificates of a net needs.
    pub fn open(alloc: Global, net: &Net) -> Result<Gradient, OutOfMemory> {
        let junctions = net.junctions() as usize;
        Ok(Gradient {
            junctions: net.junctions(),
            nodes: net.nodes(),
            links: net.links(),
            tangent: Tangent::open(alloc, net)?,
            course: Course::open(alloc, net)?,
            form: FlowForm::open(alloc, net)?,
            descent: Descent::open(alloc, net)?,
            middle: vec![in alloc; 0i64; junctions]?,
            weights: vec![in alloc; 0.0; junctions]?,
            mender: Mender::open(alloc, net)?,
            proposal: vec![in alloc; 0i64; junctions]?,
            earlier: EarlierMiddles::open(alloc, net.junctions())?,
            begun: false,
        })
    }

    // Whether a net has the size of the one of `open`.
    fn is_for(&self, net: &Net) -> bool {
        self.junctions == net.junctions() && self.nodes == net.nodes() && self.links == net.links()
    }

    // Begins with all junctions at the head of the first reservoir or tank.
    fn begin_flat(&mut self) {
        if !self.begun {
            self.begun = true;
            let head = number_at(&self.course.heads, self.junctions);
            fill(&mut self.middle, head);
        }
    }

    // Puts the slopes at the heads.
    fn put_slopes(&mut self, net: &Net) {
        self.tangent.put(
            net,
            &self.course.curves,
            &self.course.flat,
            &self.course.heads,
            &self.course.misses,
        );
    }

    // The greatest ratio of a miss to a weight.
    fn ratio(&self, net: &Net) -> f64 {
        greatest_ratio(net, &self.course.misses, self.tangent.diagonal())
    }

    // Begins anew at the middle.
    fn begin(&mut self, net: &Net) {
        self.course.begin(net, &self.middle);
        self.put_slopes(net);
    }

    // Keeps the heads as the middle where they are nearer to their balance than any before.
    fn keep(&mut self, ratio: f64, progress: &mut Progress) {
        if progress.is_best(ratio) {
            copy(&self.course.heads, &mut self.middle);
        }
    }

    // Moves flows and heads together one step toward the balance.
    fn step_flows(&mut self, net: &Net) {
        self.form.put_misses(
            net,
            &self.course.flat,
            &self.course.heads,
            &self.course.loads,
            self.tangent.slopes(),
            &mut self.course.misses,
        );
        self.tangent.solve_by_links(
            net,
            &self.course.flat,
            &self.course.heads,
            &self.course.misses,
        );
        self.course.take(net, self.tangent.step());
        self.form.advance(
            net,
            &self.course.curves,
            &self.course.heads,
            self.tangent.slopes_to_put(),
        );
    }

    // Comes near the balance by flows and heads together, as far as that goes.
    fn find_by_flows(&mut self, net: &Net, progress: &mut Progress) {
        self.form
            .begin(net, &self.course.curves, &self.course.heads);
        for _ in 0..FLOW_STEPS {
            self.step_flows(net);
            let ratio = self.ratio(net);
            self.keep(ratio, progress);
            if ratio < ENOUGH {
                return;
            }
        }
    }

    // Moves the heads one step toward the balance, and puts the slopes there.
    fn step_heads(&mut self, net: &Net, near: bool, farther: bool) {
        self.tangent.solve_at(net, &self.course.misses, near);
        self.course.advance(net, self.tangent.step(), farther);
        self.put_slopes(net);
    }

    // Comes nearer to the balance by heads alone, and tells whether there were steps. The first one may go by the factor
    // of the problem before.
    fn find_by_heads(&mut self, net: &Net, progress: &mut Progress) -> bool {
        for count in 0..MIDDLE_STEPS {
            let ratio = self.ratio(net);
            self.keep(ratio, progress);
            if progress.is_over(ratio) {
                return count > 0;
            }
            self.step_heads(net, count == 0 || ratio < NEAR, count >= FARTHER_FROM);
        }
        true
    }

    // Begins near the balance: where the last middle is far from it, at that of the earlier period whose demands were
    // most alike.
    fn begin_near(&mut self, net: &Net, total: f64) -> f64 {
        self.begin(net);
        let ratio = self.ratio(net);
        if ratio > FAR && self.earlier.put_nearest(total, &mut self.middle) {
            self.begin(net);
            return self.ratio(net);
        }
        ratio
    }

    // Finds heads near the balance without loads, and puts slopes and weights there.
    fn find_middle(&mut self, net: &Net) {
        clear(&mut self.course.loads);
        let total = total_of(&self.course.flat);
        let ratio = self.begin_near(net, total);
        let mut progress = Progress::from(ratio);
        if ratio > FAR {
            self.find_by_flows(net, &mut progress);
            self.begin(net);
        }
        progress.go_on();
        if self.find_by_heads(net, &mut progress) {
            self.begin(net);
        }
        put_weights(net, self.tangent.diagonal(), &mut self.weights);
        self.earlier.keep(total, &self.middle);
    }

    // Moves the heads one step toward the balance of the loads. At the middle the slopes stand already.
    fn step_loaded(&mut self, net: &Net, at_middle: bool) {
        if !at_middle {
            self.put_slopes(net);
        }
        self.tangent.solve_at(net, &self.course.misses, true);
        self.course.advance(net, self.tangent.step(), false);
    }

    // Whether the heads are near a certificate, which is then the proposal. So few fell short before.
    fn serves(&mut self, net: &Net, side: Side, before: u32) -> Result<bool, NoValue> {
        if !self
            .mender
            .are_fewer(net, side, &self.course.loads, &self.course.misses, before)
        {
            return Ok(false);
        }
        self.course
            .mended(net, side, &mut self.mender, &mut self.proposal)
    }

    // Whether steps from the middle toward the balance of the loads lead to a certificate, which is then the proposal.
    // For the first loads the slopes stand at the middle.
    fn find_loaded(&mut self, net: &Net, side: Side, first: bool) -> Result<bool, NoValue> {
        self.course.begin(net, &self.middle);
        let mut least = u32::MAX;
        let mut vain = 0u32;
        for count in 0..LOADED_STEPS {
            self.step_loaded(net, first && count == 0);
            if self.serves(net, side, least)? {
                return Ok(true);
            }
            let short = self.mender.short();
            vain = if short < least {
                0
            } else {
                vain.saturating_add(1)
            };
            if vain >= VAIN_STEPS {
                return Ok(false);
            }
            least = least.min(short);
        }
        Ok(false)
    }

    // Whether some loads lead to a certificate. Where a junction has no value, greater ones don't help it.
    fn find_shifted(&mut self, net: &Net, side: Side) -> Result<bool, NoValue> {
        let mut times = match side {
            Side::Upper => 1.0,
            Side::Lower => -1.0,
        };
        for count in 0..LOADS {
            multiply(&self.weights, times, &mut self.course.loads);
            if self.find_loaded(net, side, count == 0)? {
                return Ok(true);
            }
            times *= growth(count);
        }
        Ok(false)
    }

    // Whether a certificate was found, which is then the proposal.
    fn find(&mut self, net: &Net, problem: Problem, side: Side) -> bool
        requires { HasProblem net.now problem }
    {
        if !self.is_for(net) {
            return false;
        }
        self.course.fix(net, problem, side);
        self.begin_flat();
        self.find_middle(net);
        self.find_shifted(net, side).unwrap_or(false)
    }
}

impl Finder for Gradient {
    ghost told = { λ g. None };

    fn propose(&mut self, net: &Net, problem: Problem, side: Side, out: &mut [i64]) {
        if self.find(net, problem, side) {
            copy(&self.proposal, out);
        }
    }

    fn start(
        &mut self,
        net: &Net,
        problem: Problem,
        side: Side,
        out: &mut [i64],
        order: &mut [u32],
    ) -> bool {
        if !self.find(net, problem, side) {
            return false;
        }
        copy(&self.proposal, out);
        self.descent
            .descend_among(net, side, &self.course.heads, out, order)
    }
}
