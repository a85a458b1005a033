// Models in seconds: each count of ticks is written as a 64-bit float of seconds, by its recorder's clock.

#![tactic(auto)]

ghost use Rattle.std.specs.Prelude.{◌≡◌, true, ◌≤◌, length};
ghost use Rattle.integers.specs.Fill.{filled};
ghost use Rattle.seconds.specs.Clock.{seconds_of_lem, is_count, usable, usable_clock_lem, usable_form_lem, clock_of_lem};
ghost use Rattle.seconds.specs.Refusal.{seconds_number, seconds_place};
ghost use Rattle.seconds.specs.Promise.{first_outside_lem, counts_inside_lem, clocks_usable_lem, recorders_named_lem, is_table_lem, counts_answer_lem, events_answer_lem, model_value, event_value, EventsOk, ModelWritten, FormWritten, EventsWritten};

use integers::between;
use lines::{Numbered, numbered_at};

// A count lies within plus and minus this: each that does is a float exactly.
const MAX_COUNT: i64 = 9_007_199_254_740_992;
// The most recorders of a table.
const MAX_RECORDERS: usize = 16;
// The forms of a clock where it is numbers: seconds per tick, and ticks per second.
const SECONDS_FORM: u32 = 0;

const TICKS_FORM: u32 = 1;

// A recorder's clock, by the seconds of one tick or by the ticks of one second.
#[derive(Clone, Copy)]
pub enum Clock {
    SecondsPerTick(f64),
    TicksPerSecond(f64),
}

// Why no seconds are written, each with the index of its recorder, count or event where it has one.
#[derive(Clone, Copy)]
pub enum SecondsRefusal {
    UnusableClock(usize),
    CountOutside(usize),
    NoRoom,
    NoRecorder(usize),
    NoTable,
}

// The number and the place of each refusal.
pub fn seconds_number_and_place(r: SecondsRefusal) -> Numbered
    ensures { (result.number ≡ seconds_number r) × (result.place ≡ seconds_place r) }
{
    match r {
        SecondsRefusal::UnusableClock(k) => numbered_at(50, k),
        SecondsRefusal::CountOutside(k) => numbered_at(51, k),
        SecondsRefusal::NoRoom => numbered_at(52, 0),
        SecondsRefusal::NoRecorder(k) => numbered_at(53, k),
        SecondsRefusal::NoTable => numbered_at(54, 0),
    }
}

// The seconds of a count: the count made a float, and one multiplication or one division.
fn seconds_of(clock: Clock, count: i64) -> f64
    requires { is_count count ≡ true }
    ensures { result ≡ seconds_of_lem clock count }
{
    match clock {
        Clock::SecondsPerTick(s) => (count as f64) * s,
        Clock::TicksPerSecond(t) => (count as f64) / t,
    }
}

// Whether a number is finite and above zero.
fn usable_rate(x: f64) -> bool
    ensures { result ≡ usable x }
{
    x > 0.0 && x.is_finite()
}

// Whether a clock's number is one that a clock can have.
fn usable_clock(clock: Clock) -> bool
    ensures { result ≡ usable_clock_lem clock }
{
    match clock {
        Clock::SecondsPerTick(s) => usable_rate(s),
        Clock::TicksPerSecond(t) => usable_rate(t),
    }
}

// Whether a form is one of the two, and its clock can be used.
fn usable_form(form: u32, rate: f64) -> bool
    ensures { result ≡ usable_form_lem form rate }
{
    (form <= TICKS_FORM) & usable_rate(rate)
}

// The clock of a form and its number.
fn clock_of(form: u32, rate: f64) -> Clock
    ensures { result ≡ clock_of_lem form rate }
{
    if form == SECONDS_FORM {
        Clock::SecondsPerTick(rate)
    } else {
        Clock::TicksPerSecond(rate)
    }
}

// 51, with the lowest index of a count outside its limit.
fn counts_inside(counts: &[i64]) -> Result<(), SecondsRefusal>
    ensures { result ≡ counts_inside_lem counts.now }
{
    for i in 0..counts.len() {
        if !between(-MAX_COUNT, MAX_COUNT, counts[i]) {
            return Err(SecondsRefusal::CountOutside(i));
        }
    }
    Ok(())
}

// 50, with the lowest recorder whose clock can't be used.
fn clocks_usable(forms: &[u32], rates: &[f64]) -> Result<(), SecondsRefusal>
    requires { length forms.now ≡ length rates.now }
    ensures { result ≡ clocks_usable_lem forms.now rates.now }
{
    for i in 0..forms.len() {
        if !usable_form(forms[i], rates[i]) {
            return Err(SecondsRefusal::UnusableClock(i));
        }
    }
    Ok(())
}

// 53, with the lowest event that names none of the table's recorders.
fn recorders_named(size: usize, recorders: &[u32]) -> Result<(), SecondsRefusal>
    ensures { result ≡ recorders_named_lem size recorders.now }
{
    for i in 0..recorders.len() {
        if recorders[i] as usize >= size {
            return Err(SecondsRefusal::NoRecorder(i));
        }
    }
    Ok(())
}

// 51, then 52.
fn counts_answer(counts: &[i64], room: usize) -> Result<(), SecondsRefusal>
    ensures { result ≡ counts_answer_lem counts.now room }
{
    counts_inside(counts)?;
    if room < counts.len() {
        return Err(SecondsRefusal::NoRoom);
    }
    Ok(())
}

// Writes the seconds of counts of one clock.
fn write_model(clock: Clock, counts: &[i64], seconds: &mut [f64])
    requires counts_len_bound { length counts.now ≤ first_outside_lem counts.now }
    requires counts_in_bounds { length counts.now ≤ length seconds.old }
    ensures { seconds.new ≡ filled (model_value clock counts.now) seconds.old (length counts.now) }
{
    for i in 0..counts.len() {
        seconds[i] = seconds_of(clock, counts[i]);
    }
}

// The counts of one clock in seconds: 50, then 51, then 52.
pub fn model_seconds(
    clock: Clock,
    counts: &[i64],
    seconds: &mut [f64],
) -> Result<(), SecondsRefusal>
    ensures { ModelWritten clock counts.now result seconds.old seconds.new }
{
    if !usable_clock(clock) {
        return Err(SecondsRefusal::UnusableClock(0));
    }
    counts_answer(counts, seconds.len())?;
    write_model(clock, counts, seconds);
    Ok(())
}

// The same of a clock that is given as a form and its number.
pub fn form_seconds(
    form: u32,
    rate: f64,
    counts: &[i64],
    seconds: &mut [f64],
) -> Result<(), SecondsRefusal>
    ensures { FormWritten form rate counts.now result seconds.old seconds.new }
{
    if TICKS_FORM < form {
        return Err(SecondsRefusal::UnusableClock(0));
    }
    model_seconds(clock_of(form, rate), counts, seconds)
}

// Whether the numbers of a table go together: not too many recorders, a number for each form, and a recorder for each count.
fn is_table(forms: usize, rates: usize, events: usize, counts: usize) -> bool
    ensures { result ≡ is_table_lem forms rates events counts }
{
    (forms <= MAX_RECORDERS) & (forms == rates) & (events == counts)
}

// 54, then 50, then 53, then 51, then 52.
fn events_answer(
    forms: &[u32],
    rates: &[f64],
    recorders: &[u32],
    counts: &[i64],
    room: usize,
) -> Result<(), SecondsRefusal>
    ensures { result ≡ events_answer_lem forms.now rates.now recorders.now counts.now room }
{
    if !is_table(forms.len(), rates.len(), recorders.len(), counts.len()) {
        return Err(SecondsRefusal::NoTable);
    }
    clocks_usable(forms, rates)?;
    recorders_named(forms.len(), recorders)?;
    counts_answer(counts, room)
}

// Writes the seconds of counts, each by its own recorder's clock.
fn write_events(
    forms: &[u32],
    rates: &[f64],
    recorders: &[u32],
    counts: &[i64],
    seconds: &mut [f64],
)
    requires { EventsOk forms.now rates.now recorders.now counts.now (length seconds.old) }
    ensures { seconds.new ≡ filled (event_value forms.now rates.now recorders.now counts.now) seconds.old (length counts.now) }
{
    for i in 0..counts.len() {
        let r = recorders[i] as usize;
        let clock = clock_of(forms[r], rates[r]);
        seconds[i] = seconds_of(clock, counts[i]);
    }
}

// The counts of events in seconds, each by the clock of its recorder in a table.
pub fn events_seconds(
    forms: &[u32],
    rates: &[f64],
    recorders: &[u32],
    counts: &[i64],
    seconds: &mut [f64],
) -> Result<(), SecondsRefusal>
    ensures { EventsWritten forms.now rates.now recorders.now counts.now result seconds.old seconds.new }
{
    events_answer(forms, rates, recorders, counts, seconds.len())?;
    write_events(forms, rates, recorders, counts, seconds);
    Ok(())
}
