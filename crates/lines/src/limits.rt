// The specification's limits, each in this one place; specs/Limits.antt has the same for the definitions.
ghost use Rattle.std.specs.Prelude.{◌≡◌, ◌≤◌, pos};
ghost use Rattle.lines.specs.Limits.{max_variables, shown_constant_lem};

// How many numbers a line has.
pub const LINE_SIZE: usize = 6;
// The most variables.
pub const MAX_VARIABLES: usize = 256;
// The most lines.
pub const MAX_LINES: usize = 4_096;
// A line's d lies within plus and minus this.
pub const MAX_CONSTANT: i64 = 1_000_000;
// Deciding works on a greater d, too: that of the opposite of a line that is shown.
pub const WORK_CONSTANT: i64 = 2 * MAX_VARIABLES as i64 * MAX_CONSTANT + 1;
// A model is written of lists whose d lie within this: that of the opposite of a valid line.
pub const MODEL_CONSTANT: i64 = MAX_CONSTANT + 1;
// The greatest identifier of a message: 29 bits.
pub const MAX_IDENTIFIER: i64 = 536_870_911;
// A proposed model's values lie within plus and minus this.
pub const MAX_VALUE: i64 = 1_000_000_000_000;
// The most numbers of a proposed refutation.
pub const MAX_REFUTATION: usize = 65_536;

// The d of a line that is shown, among n variables, lies within plus and minus this.
pub fn shown_constant(n: usize) -> i64
    requires { n ≤ max_variables }
    ensures { result ≡ pos (shown_constant_lem n) }
{
    (2 * n * MAX_CONSTANT as usize) as i64
}
