// The least weights of the steps of a list with one hub, at the front of the work area. A row holds a number for each
// point: the least weight of a step from it to the hub's plus point, in the next row to the hub's minus point, in the
// last to the point's opposite, or NO_WALK.

#![tactic(auto)]

ghost use Rattle.std.specs.Prelude.{◌≡◌, true, [], ◌∷◌, ◌<◌, length};
ghost use Rattle.lines.specs.Line.{lines_of};
ghost use Rattle.steps.specs.Step.{step_numbered_lem, steps_of, named};
ghost use Rattle.hub_weights.specs.Weights.{WeightsReady, WeightsLaid};
ghost use Rattle.hub_weights.specs.Lowered.{Lowered};
ghost use Rattle.hub_weights.specs.Put.{Placed, StepReady, StepsPut, Puts};

use decide_rows::NO_WALK;
use engine_closed_walk::fill;
use lines::limits::LINE_SIZE;
use steps::{Step, opposite_of, step_numbered};

// The hub's two points are below this. In theory_hub it is `hub_points`.
pub const HUB_POINTS: usize = 2;
// The row of the steps to the opposite, behind those of the steps to the hub: `own_row`.
pub const OWN_ROW: usize = 2;
// How many rows there are: `weight_rows`.
pub const WEIGHT_ROWS: usize = 3;

// A number lowered to a weight, if it is above it.
fn lower(work: &mut [i64], at: usize, weight: i64)
    requires { at < length work.old }
    ensures { Lowered at weight work.old work.new }
{
    if weight < work[at] {
        work[at] = weight;
    }
}

// Whether a list with one hub may have a step between these points: it starts or ends at the hub, or goes to the
// opposite.
fn has_place(from: usize, to: usize) -> bool
    ensures { result ≡ true → Placed from to }
{
    if from == to {
        return false;
    }
    let from_hub = from < HUB_POINTS;
    if from_hub {
        return true;
    }
    if to < HUB_POINTS {
        return true;
    }
    to == opposite_of(from)
}

// The weight of a step, in each row that it belongs to.
fn put_step(step: Step, size: usize, work: &mut [i64])
    requires { StepReady size step work.old }
    ensures { StepsPut size (step ∷ []) work.old work.new }
{
    let from = step.from;
    let to = step.to;
    let weight = step.weight;
    if to < HUB_POINTS {
        lower(work, to * size + from, weight);
    }
    if to == opposite_of(from) {
        lower(work, OWN_ROW * size + from, weight);
    }
}

// The weight of the step with a number, where it names one; false if the step shows that the list has not one hub.
fn put_numbered(list: &[i32], n: usize, work: &mut [i64], number: usize) -> bool
    requires { WeightsReady n list.now work.old }
    ensures { Puts n (named (step_numbered_lem list.now number)) work.old work.new result }
{
    let named = step_numbered(list, number);
    if let Some(t) = named {
        let here = has_place(t.from, t.to);
        if !here {
            return false;
        }
        put_step(t, 2 * n, work);
    }
    true
}

// The weights of all steps; false, with the rest left out, if the list has not one hub.
fn put_steps(list: &[i32], n: usize, work: &mut [i64]) -> bool
    requires { WeightsReady n list.now work.old }
    ensures { Puts n (steps_of (lines_of list.now)) work.old work.new result }
{
    let count = 2 * (list.len() / LINE_SIZE);
    for number in 0..count {
        let put = put_numbered(list, n, work, number);
        if !put {
            return false;
        }
    }
    true
}

// Lays the least weights of a list's steps at the front of the work area, and says whether the list has one hub. If not,
// what stands there is of no use.
pub fn lay_weights(list: &[i32], n: usize, work: &mut [i64]) -> bool
    requires { WeightsReady n list.now work.old }
    ensures { WeightsLaid n list.now work.old work.new result }
{
    fill(work, 0, WEIGHT_ROWS * (2 * n), NO_WALK);
    put_steps(list, n, work)
}
