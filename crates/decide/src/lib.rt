// Deciding a list: a refutation if there is one, else the model, the bounds and the groups.

#![tactic(auto)]

ghost use Rattle.std.specs.Prelude.{◌≡◌, true, false, ◌≤◌, length, Ok};
ghost use Rattle.decide_written_walks.specs.Refutation.{HalvesReady};
ghost use Rattle.engine_packed_steps.specs.Layout.{places_at};
ghost use Rattle.engine_halves_walks.specs.Halves.{HalvesAtOnce};
ghost use Rattle.lines.specs.Line.{lines_of};
ghost use Rattle.theory_bounds.specs.Verdict.{has_false};
ghost use Rattle.engine_table.specs.Found.{TableAsked};
ghost use Rattle.decide.specs.Searched.{SearchReady, Searched};
ghost use Rattle.decide.specs.Modelled.{ModelAsked, Modelled};
ghost use Rattle.decide.specs.Decided.{validity_for, Decided};

use decide_buffers::{Lengths, clear, decide_validity, work_room};
use decide_false_line::first_false;
use decide_halves::first_bad;
use decide_identifiers::write_identifiers;
use decide_model::write_model;
use decide_written_walks::{write_closed, write_false, write_halves};
use decide_yes::write_answers;
use engine_closed_walk::refuted_at_once;
use engine_halves_walks::halves_at_once;
use engine_merged_steps::lay_steps;
use engine_table::table_by_elimination;
use hub_answers::answered_by_hub;
use lines::Refusal;
use lines::limits::LINE_SIZE;

// Whether there is a solution.
#[derive(Clone, Copy)]
pub enum Answer {
    Yes,
    No,
}

// The refutation by two walks between the point p and its opposite: at once, or else from rows.
fn refute_by_halves(list: &[i32], n: usize, p: usize, refutation: &mut [u32], work: &mut [i64])
    requires { HalvesReady n list.now p refutation.old work.old × (places_at n ≤ length work.old) }
    ensures { HalvesAtOnce n list.now refutation.old work.old refutation.new work.new true }
{
    if halves_at_once(list, n, p, refutation, work) {
        return;
    }
    write_halves(list, n, p, refutation, work);
}

// Whether the table refutes the list: a closed walk of negative sum, else two walks between a point and its opposite. If
// so, the refutation is written; else the table of distances stands in the work area.
fn refuted_by_table(
    list: &[i32],
    n: usize,
    count: usize,
    refutation: &mut [u32],
    work: &mut [i64],
) -> bool
    requires { SearchReady n list.now refutation.old work.old × TableAsked n list.now count work.old × (has_false (lines_of list.now) ≡ false) }
    ensures { Searched n list.now refutation.old work.old refutation.new work.new result }
{
    let size = 2 * n;
    let start = (size + 1) * size;
    let u = table_by_elimination(list, n, count, work);
    if u < size {
        write_closed(list, n, u, refutation, work);
        return true;
    }
    let p = first_bad(&work[start..start + size * size], n);
    if p < size {
        refute_by_halves(list, n, p, refutation, work);
        return true;
    }
    false
}

// Whether walks refute the list: at once by a closed walk of negative sum that passes over its steps show, else by the
// table.
fn refuted_by_walks(list: &[i32], n: usize, refutation: &mut [u32], work: &mut [i64]) -> bool
    requires { SearchReady n list.now refutation.old work.old × (has_false (lines_of list.now) ≡ false) }
    ensures { Searched n list.now refutation.old work.old refutation.new work.new result }
{
    if n == 0 {
        return false;
    }
    let count = lay_steps(list, n, work);
    if refuted_at_once(list, n, count, refutation, work) {
        return true;
    }
    refuted_by_table(list, n, count, refutation, work)
}

// Whether the list is refuted: by its lowest false line, else by walks.
pub fn refuted(list: &[i32], n: usize, refutation: &mut [u32], work: &mut [i64]) -> bool
    requires { SearchReady n list.now refutation.old work.old }
    ensures { Searched n list.now refutation.old work.old refutation.new work.new result }
{
    let line = first_false(list);
    if line < list.len() / LINE_SIZE {
        write_false(refutation, line);
        return true;
    }
    refuted_by_walks(list, n, refutation, work)
}

// Whether the list is refuted. If it is not, its model is written, from the table that the search leaves.
pub fn refuted_or_modelled(
    list: &[i32],
    n: usize,
    model: &mut [i32],
    refutation: &mut [u32],
    work: &mut [i64],
) -> bool
    requires { ModelAsked n list.now model.old refutation.old work.old }
    ensures { Modelled n list.now model.old refutation.old work.old model.new refutation.new work.new result }
{
    if refuted(list, n, refutation, work) {
        return true;
    }
    let size = 2 * n;
    let start = (size + 1) * size;
    write_model(&work[start..start + size * size], n, model);
    false
}

// Decides a list that nothing is refused of, by the table of distances.
fn decide_by_table(
    n: usize,
    list: &[i32],
    model: &mut [i32],
    bounds: &mut [i64],
    groups: &mut [u32],
    refutation: &mut [u32],
    identifiers: &mut [u32],
    work: &mut [i64],
) -> Answer
    requires { validity_for n list.now
        (record { model = model.old; bounds = bounds.old; groups = groups.old; refutation = refutation.old; identifiers = identifiers.old; work = work.old }) ≡ Ok tt }
    ensures { Decided n list.now (Ok result)
        (record { model = model.old; bounds = bounds.old; groups = groups.old; refutation = refutation.old; identifiers = identifiers.old; work = work.old })
        (record { model = model.new; bounds = bounds.new; groups = groups.new; refutation = refutation.new; identifiers = identifiers.new; work = work.new }) }
{
    let room = work_room(n);
    if refuted(list, n, refutation, work) {
        write_identifiers(list, refutation, identifiers);
        clear(work, room);
        return Answer::No;
    }
    let size = 2 * n;
    let start = (size + 1) * size;
    write_answers(&work[start..start + size * size], n, model, bounds, groups);
    clear(work, room);
    Answer::Yes
}

// Decides a list for n variables: without a table where it has one hub, else by the table.
pub fn decide(
    n: usize,
    list: &[i32],
    model: &mut [i32],
    bounds: &mut [i64],
    groups: &mut [u32],
    refutation: &mut [u32],
    identifiers: &mut [u32],
    work: &mut [i64],
) -> Result<Answer, Refusal>
    ensures { Decided n list.now result
        (record { model = model.old; bounds = bounds.old; groups = groups.old; refutation = refutation.old; identifiers = identifiers.old; work = work.old })
        (record { model = model.new; bounds = bounds.new; groups = groups.new; refutation = refutation.new; identifiers = identifiers.new; work = work.new }) }
{
    decide_validity(
        n,
        list,
        Lengths {
            model: model.len(),
            bounds: bounds.len(),
            groups: groups.len(),
            refutation: refutation.len(),
            identifiers: identifiers.len(),
            work: work.len(),
        },
    )?;
    if answered_by_hub(list, n, model, bounds, groups, work) {
        clear(work, work_room(n));
        return Ok(Answer::Yes);
    }
    Ok(decide_by_table(
        n,
        list,
        model,
        bounds,
        groups,
        refutation,
        identifiers,
        work,
    ))
}
