// A list of lines as docs/SPECIFICATION.md gives it: its lines, and the first refusal that applies to it.

#![tactic(auto)]

pub mod limits;

ghost use Rattle.std.specs.Prelude.{◌≡◌, not, ◌<◌, ◌≤◌};
ghost use Rattle.lines.specs.Limits.{max_variables, work_constant};
ghost use Rattle.lines.specs.Line.{line_numbers_lem, line_at, line_count, lines_of, is_false_lem};
ghost use Rattle.lines.specs.Refusal.{number_of, place_of, ◌or_else◌, refuse_if, coefficients_ok_lem, variable_ok_lem, variables_ok_lem, lone_ok_lem, constant_ok_lem, identifier_ok_lem, rules_within, first_broken, line_validity_lem, shown_validity_lem, lines_validity_lem, validity_of};
ghost use Rattle.integers.specs.Integer.{is_between, Within};

use integers::between;
use limits::{LINE_SIZE, MAX_CONSTANT, MAX_IDENTIFIER, MAX_LINES, MAX_VARIABLES, shown_constant};

// One line: a·x + b·y <= d. x and y are the numbers of variables (the field's term: a UTVPI constraint). The identifier is that of the message
// which the line came from.
#[repr(C)]
#[derive(Clone, Copy)]
pub struct Line {
    pub a: i32,
    pub x: i32,
    pub b: i32,
    pub y: i32,
    pub d: i32,
    pub identifier: i32,
}

// The specification's refusals, in the order of their numbers, each with its place where it has one.
#[derive(Clone, Copy)]
pub enum Refusal {
    TooManyVariables,
    BrokenLength,
    TooManyLines,
    BadCoefficient(usize),
    BadVariable(usize),
    BadConstant(usize),
    ShortOutput(usize),
    ShortWorkArea,
    WrongModelLength,
    BadValue(usize),
    LongRefutation,
    MisplacedCoefficient(usize),
    BadIdentifier(usize),
    AfterNo,
    NoLines,
    NotDifference(usize),
}

// The specification's number and place of a refusal.
#[derive(Clone, Copy)]
pub struct Numbered {
    pub number: usize,
    pub place: usize,
}

// This number and this place.
pub fn numbered_at(number: usize, place: usize) -> Numbered
    ensures { (result.number ≡ number) × (result.place ≡ place) }
{
    Numbered { number, place }
}

// The specification's table: the number and the place of each refusal.
pub fn number_and_place(r: Refusal) -> Numbered
    ensures { (result.number ≡ number_of r) × (result.place ≡ place_of r) }
{
    match r {
        Refusal::TooManyVariables => numbered_at(1, 0),
        Refusal::BrokenLength => numbered_at(2, 0),
        Refusal::TooManyLines => numbered_at(3, 0),
        Refusal::BadCoefficient(k) => numbered_at(4, k),
        Refusal::BadVariable(k) => numbered_at(5, k),
        Refusal::BadConstant(k) => numbered_at(6, k),
        Refusal::ShortOutput(k) => numbered_at(7, k),
        Refusal::ShortWorkArea => numbered_at(8, 0),
        Refusal::WrongModelLength => numbered_at(9, 0),
        Refusal::BadValue(k) => numbered_at(10, k),
        Refusal::LongRefutation => numbered_at(11, 0),
        Refusal::MisplacedCoefficient(k) => numbered_at(12, k),
        Refusal::BadIdentifier(k) => numbered_at(13, k),
        Refusal::AfterNo => numbered_at(30, 0),
        Refusal::NoLines => numbered_at(31, 0),
        Refusal::NotDifference(k) => numbered_at(60, k),
    }
}

// Line number k.
pub fn line_at(list: &[i32], k: usize) -> Line
    requires { k < line_count list.now }
    ensures { result ≡ line_at list.now k }
{
    let at = LINE_SIZE * k;
    Line {
        a: list[at],
        x: list[at + 1],
        b: list[at + 2],
        y: list[at + 3],
        d: list[at + 4],
        identifier: list[at + 5],
    }
}

// The numbers of a line, in their order.
pub fn line_numbers(line: Line) -> [i32; LINE_SIZE]
    ensures { result ≡ line_numbers_lem line }
{
    [line.a, line.x, line.b, line.y, line.d, line.identifier]
}

// Whether low <= z <= high.
fn in_range(low: i64, high: i64, z: i32) -> bool
    ensures { result ≡ is_between low high z }
{
    between(low, high, z as i64)
}

// Rule 4: both coefficients are -1, 0 or 1.
fn coefficients_ok(line: Line) -> bool
    ensures { result ≡ coefficients_ok_lem line }
{
    in_range(-1, 1, line.a) && in_range(-1, 1, line.b)
}

// A variable number is compared as the signed number that it is.
fn variable_ok(n: usize, a: i32, x: i32) -> bool
    requires { n ≤ max_variables }
    ensures { result ≡ variable_ok_lem n a x }
{
    if a == 0 {
        return x == 0;
    }
    0 <= x && x < n as i32
}

// Rule 5: both variable numbers are right.
fn variables_ok(n: usize, line: Line) -> bool
    requires { n ≤ max_variables }
    ensures { result ≡ variables_ok_lem n line }
{
    variable_ok(n, line.a, line.x) && variable_ok(n, line.b, line.y)
}

// Rule 12: a lone coefficient stands in the first place.
fn lone_ok(line: Line) -> bool
    ensures { result ≡ lone_ok_lem line }
{
    if line.a != 0 {
        return true;
    }
    line.b == 0
}

// Rule 6: d lies within its limit.
fn constant_ok(most: i64, line: Line) -> bool
    requires { Within work_constant most }
    ensures { result ≡ constant_ok_lem most line }
{
    in_range(-most, most, line.d)
}

// Rule 13: the identifier is compared as the signed number that it is.
fn identifier_ok(line: Line) -> bool
    ensures { result ≡ identifier_ok_lem line }
{
    in_range(0, MAX_IDENTIFIER, line.identifier)
}

// What was found before, or else the refusal of a rule that is broken.
fn or_unless(found: Result<(), Refusal>, ok: bool, r: Refusal) -> Result<(), Refusal>
    ensures { result ≡ (found or_else refuse_if (not ok) r) }
{
    if let Err(q) = found {
        return Err(q);
    }
    if ok {
        return Ok(());
    }
    Err(r)
}

// The first rule that line number k breaks, with a limit for d: a line here for each, in the order of specs/Refusal.antt.
fn validity_within(most: i64, n: usize, k: usize, line: Line) -> Result<(), Refusal>
    requires { Within work_constant most × (n ≤ max_variables) }
    ensures { result ≡ first_broken (rules_within most) n k line }
{
    let found = Ok(());
    let found = or_unless(found, coefficients_ok(line), Refusal::BadCoefficient(k));
    let found = or_unless(found, variables_ok(n, line), Refusal::BadVariable(k));
    let found = or_unless(found, lone_ok(line), Refusal::MisplacedCoefficient(k));
    let found = or_unless(found, constant_ok(most, line), Refusal::BadConstant(k));
    let found = or_unless(found, identifier_ok(line), Refusal::BadIdentifier(k));
    found
}

// The first rule that line number k of a list breaks.
pub fn line_validity(n: usize, k: usize, line: Line) -> Result<(), Refusal>
    requires { n ≤ max_variables }
    ensures { result ≡ line_validity_lem n k line }
{
    validity_within(MAX_CONSTANT, n, k, line)
}

// The first rule that a line breaks which is shown, as line number k.
pub fn shown_validity(n: usize, k: usize, line: Line) -> Result<(), Refusal>
    requires { n ≤ max_variables }
    ensures { result ≡ shown_validity_lem n k line }
{
    validity_within(shown_constant(n), n, k, line)
}

// The first refusal among the lines.
fn lines_validity(n: usize, list: &[i32]) -> Result<(), Refusal>
    requires { n ≤ max_variables }
    ensures { result ≡ lines_validity_lem n 0 (lines_of list.now) }
{
    let count = list.len() / LINE_SIZE;
    for k in 0..count {
        line_validity(n, k, line_at(list, k))?;
    }
    Ok(())
}

// The first refusal that applies to a list for n variables.
pub fn list_validity(n: usize, list: &[i32]) -> Result<(), Refusal>
    ensures { result ≡ validity_of n list.now }
{
    if MAX_VARIABLES < n {
        return Err(Refusal::TooManyVariables);
    }
    if list.len() % LINE_SIZE != 0 {
        return Err(Refusal::BrokenLength);
    }
    if MAX_LINES < list.len() / LINE_SIZE {
        return Err(Refusal::TooManyLines);
    }
    lines_validity(n, list)
}

// Whether a line is false: both coefficients are 0, and d is below 0.
pub fn is_false(line: Line) -> bool
    ensures { result ≡ is_false_lem line }
{
    if line.a != 0 {
        return false;
    }
    if line.b != 0 {
        return false;
    }
    line.d < 0
}
