// The exported functions that write counts of ticks in seconds. Each answers a struct.
ghost use Rattle.c_seconds.specs.Seconds.{ModelReturns, EventsReturn};

use c_seconds::SecondsWritten;

// Writes the counts of one clock in seconds: form 0 is seconds per tick, form 1 is ticks per second.
#[unsafe(no_mangle)]
pub extern "C" fn utvpi_model_seconds(
    form: u32,
    rate: f64,
    counts: &[i64],
    seconds: &mut [f64],
) -> SecondsWritten
    ensures { ModelReturns form rate counts.now result seconds.old seconds.new }
{
    c_seconds::utvpi_model_seconds(form, rate, counts, seconds)
}

// Writes the counts of events in seconds, each by the clock of its recorder in a table.
#[unsafe(no_mangle)]
pub extern "C" fn utvpi_events_seconds(
    forms: &[u32],
    rates: &[f64],
    recorders: &[u32],
    counts: &[i64],
    seconds: &mut [f64],
) -> SecondsWritten
    ensures { EventsReturn forms.now rates.now recorders.now counts.now result seconds.old seconds.new }
{
    c_seconds::utvpi_events_seconds(forms, rates, recorders, counts, seconds)
}
