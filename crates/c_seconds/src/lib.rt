// The exported functions that write counts of ticks in seconds. Each answers a struct.

#![tactic(auto)]

ghost use Rattle.std.specs.Prelude.{◌≡◌};
ghost use Rattle.c_seconds.specs.Seconds.{seconds_written, ModelReturns, EventsReturn};

use seconds::{SecondsRefusal, events_seconds, form_seconds, seconds_number_and_place};

// What writing seconds returns: a refusal's number and place, or 0 and 0.
#[repr(C)]
#[derive(Clone, Copy)]
pub struct SecondsWritten {
    pub refusal: u64,
    pub place: u64,
}

// The struct that an answer is returned as.
fn seconds_result(a: Result<(), SecondsRefusal>) -> SecondsWritten
    ensures { result ≡ seconds_written a }
{
    match a {
        Ok(()) => SecondsWritten {
            refusal: 0,
            place: 0,
        },
        Err(r) => {
            let s = seconds_number_and_place(r);
            SecondsWritten {
                refusal: s.number as u64,
                place: s.place as u64,
            }
        }
    }
}

// Writes the counts of one clock in seconds: form 0 is seconds per tick, form 1 is ticks per second.
pub fn utvpi_model_seconds(
    form: u32,
    rate: f64,
    counts: &[i64],
    seconds: &mut [f64],
) -> SecondsWritten
    ensures { ModelReturns form rate counts.now result seconds.old seconds.new }
{
    seconds_result(form_seconds(form, rate, counts, seconds))
}

// Writes the counts of events in seconds, each by the clock of its recorder in a table.
pub fn utvpi_events_seconds(
    forms: &[u32],
    rates: &[f64],
    recorders: &[u32],
    counts: &[i64],
    seconds: &mut [f64],
) -> SecondsWritten
    ensures { EventsReturn forms.now rates.now recorders.now counts.now result seconds.old seconds.new }
{
    seconds_result(events_seconds(forms, rates, recorders, counts, seconds))
}
