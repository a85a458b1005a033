// A file for lists, read and written.

#![tactic(auto)]

ghost use Rattle.std.specs.Prelude.{◌≡◌, ◌++◌, ◌+◌, ◌*◌, ◌<◌, ◌≤◌, length, drop, Ok};
ghost use Rattle.lines.specs.Limits.{line_size, max_variables};
ghost use Rattle.lines.specs.Line.{line_numbers_lem, line_at, line_count, lines_of};
ghost use Rattle.little_endian.specs.Writing.{int32_bytes, put};
ghost use Rattle.file_records.specs.Table.{header_size, record_size_lem, record_size_at_lem};
ghost use Rattle.file_records.specs.declared.Kind.TheVariants.{Variables};
ghost use Rattle.file_records.specs.Record.{LineAt};
ghost use Rattle.file_records.specs.Laid.{Lines};
ghost use Rattle.file_list.specs.File.{kind_of, line_record, line_records, file_of, lines_end, file_size_lem, line_in, file_list_lem};
ghost use Rattle.file_list.specs.Putting.{header};
ghost use Rattle.file_list.specs.Read.{list_validity_lem, after_scan, Leaves, ReadDone};
ghost use Rattle.file_list.specs.Write.{WriteDone};

use file_records::{
    BARE_SIZE, Cursor, FileRefusal, HEADER_SIZE, Kind, NUMBER_BYTES, record_size, record_size_at,
    scan,
};
use lines::limits::{LINE_SIZE, MAX_LINES, MAX_VARIABLES};
use lines::{Line, Refusal, line_at, list_validity};
use little_endian::{decode_i32, put_i32, put_u16, put_u32};

// The bytes of the record of n, and of the longest of a line.
pub const VARIABLES_RECORD: usize = HEADER_SIZE + NUMBER_BYTES;

pub const LONGEST_LINE_RECORD: usize = HEADER_SIZE + NUMBER_BYTES * LINE_SIZE;
// The numbers of the longest list.
const MOST_NUMBERS: usize = LINE_SIZE * MAX_LINES;

// What stands in a file: n and the number of lines.
#[derive(Clone, Copy)]
pub struct Listed {
    pub n: usize,
    pub lines: usize,
}

// A header: the length of the body and the kind, each in one half.
fn put_header(out: &mut [u8], at: usize, kind: Kind)
    requires { at + header_size ≤ length out.old }
    ensures { out.new ≡ put out.old at (header kind) }
{
    put_u16(out, at, kind.body_size());
    put_u16(out, at + HEADER_SIZE / 2, kind.number());
}

// Numbers, one behind the other.
fn put_numbers(out: &mut [u8], at: usize, numbers: &[i32])
    requires { at + 4 * length numbers.now ≤ length out.old }
    ensures { out.new ≡ put out.old at (int32_bytes numbers.now) }
{
    for (i, number) in numbers.iter().enumerate() {
        put_i32(out, at + NUMBER_BYTES * i, *number);
    }
}

// The kind of a line's record: an identifier of 0 is not written.
fn line_kind(line: Line) -> Kind
    ensures { result ≡ kind_of line }
{
    if line.identifier == 0 {
        return Kind::Line;
    }
    Kind::Identified
}

// The record of line k, and where it ends.
fn put_line(list: &[i32], k: usize, out: &mut [u8], at: usize) -> usize
    requires { (k < line_count list.now) × (at + record_size_lem (kind_of (line_at list.now k)) ≤ length out.old) }
    ensures { (result ≡ at + record_size_lem (kind_of (line_at list.now k))) × (out.new ≡ put out.old at (line_record (line_at list.now k))) }
{
    let kind = line_kind(line_at(list, k));
    let first = LINE_SIZE * k;
    let count = kind.body_size() / NUMBER_BYTES;
    put_header(out, at, kind);
    put_numbers(out, at + HEADER_SIZE, &list[first..first + count]);
    at + record_size(kind)
}

// The records of all lines, behind that of n, and where they end.
fn put_lines(list: &[i32], out: &mut [u8]) -> usize
    requires { lines_end list.now ≤ length out.old }
    ensures { (result ≡ lines_end list.now) × (out.new ≡ put out.old (record_size_lem Variables) (line_records (lines_of list.now))) }
{
    let count = list.len() / LINE_SIZE;
    let mut at = VARIABLES_RECORD;
    for k in 0..count {
        at = put_line(list, k, out, at);
    }
    at
}

// The whole file.
fn put_file(n: usize, list: &[i32], out: &mut [u8])
    requires { (n ≤ max_variables) × (file_size_lem list.now ≤ length out.old) }
    ensures { out.new ≡ put out.old 0 (file_of n list.now) }
{
    put_header(out, 0, Kind::Variables);
    put_u32(out, HEADER_SIZE, n as u32);
    let end = put_lines(list, out);
    put_header(out, end, Kind::End);
}

// The bytes of a list's file.
fn file_size(list: &[i32]) -> usize
    ensures { result ≡ file_size_lem list.now }
{
    let count = list.len() / LINE_SIZE;
    let mut size = VARIABLES_RECORD;
    for k in 0..count {
        size += record_size(line_kind(line_at(list, k)));
    }
    size + HEADER_SIZE
}

// Writes the file of a list for n variables. All refusals come before the first byte, so that each leaves the buffer as it was.
pub fn write_list(n: usize, list: &[i32], out: &mut [u8]) -> Result<usize, FileRefusal>
    ensures { WriteDone n list.now result out.old out.new }
{
    list_validity(n, list)?;
    let size = file_size(list);
    if out.len() < size {
        return Err(FileRefusal::NoRoom(0));
    }
    put_file(n, list, out);
    Ok(size)
}

// The numbers of the line at `at`, and where its record ends. An identifier that does not stand there is 0.
fn decode_line(bytes: &[u8], at: usize, line: &mut [i32]) -> usize
    requires { LineAt bytes.now at × (length line.old ≡ line_size) }
    ensures { (result ≡ at + record_size_at_lem bytes.now at) × (line.new ≡ line_numbers_lem (line_in bytes.now at)) }
{
    let body = at + HEADER_SIZE;
    let end = at + record_size_at(bytes, at);
    line[BARE_SIZE] = 0;
    decode_i32(&bytes[body..end], line);
    end
}

// The numbers of all lines, from the records behind that of n, into the front of the list's buffer.
pub fn decode_lines(bytes: &[u8], lines: usize, numbers: &mut [i32])
    requires { Lines bytes.now lines × (line_size * lines ≤ length numbers.old) }
    ensures { numbers.new ≡ file_list_lem bytes.now lines ++ drop (line_size * lines) numbers.old }
{
    let mut at = VARIABLES_RECORD;
    for k in 0..lines {
        let first = LINE_SIZE * k;
        at = decode_line(bytes, at, &mut numbers[first..first + LINE_SIZE]);
    }
}

// Whether the list of a file is refused: by 1, with a limit of the caller's own, then by those of the list. Its numbers are
// looked at beside the caller's buffer, which a refusal must leave as it was.
#[tactic(auto, unfolding(crate::specs::Read::list_validity_lem))]
fn file_validity(bytes: &[u8], most: usize, n: usize, lines: usize) -> Result<(), Refusal>
    requires { (most ≤ max_variables) × Lines bytes.now lines }
    ensures { result ≡ list_validity_lem most n (file_list_lem bytes.now lines) }
{
    if most < n {
        return Err(Refusal::TooManyVariables);
    }
    if MAX_LINES < lines {
        return Err(Refusal::TooManyLines);
    }
    let mut numbers = [0i32; MOST_NUMBERS];
    decode_lines(bytes, lines, &mut numbers);
    list_validity(n, &numbers[..LINE_SIZE * lines])
}

// Where the records are whole: the list's refusals, then its numbers are written.
fn read_lines(
    bytes: &[u8],
    most: usize,
    found: Cursor,
    numbers: &mut [i32],
) -> Result<Listed, FileRefusal>
    requires { (most ≤ max_variables) × Lines bytes.now found.lines × (line_size * found.lines ≤ length numbers.old) }
    ensures { (result ≡ after_scan most bytes.now (Ok found)) × Leaves bytes.now result numbers.old numbers.new }
{
    file_validity(bytes, most, found.n, found.lines)?;
    decode_lines(bytes, found.lines, numbers);
    Ok(Listed {
        n: found.n,
        lines: found.lines,
    })
}

// Reads a file's list into the front of a buffer, with at most so many variables.
pub fn read_within(bytes: &[u8], most: usize, numbers: &mut [i32]) -> Result<Listed, FileRefusal>
    requires { most ≤ max_variables }
    ensures { ReadDone most bytes.now result numbers.old numbers.new }
{
    let found = scan(bytes, numbers.len())?;
    read_lines(bytes, most, found, numbers)
}

// Reads a file's list into the front of a buffer: n and the number of lines, or the first refusal, which changes nothing.
pub fn read_list(bytes: &[u8], numbers: &mut [i32]) -> Result<Listed, FileRefusal>
    ensures { ReadDone max_variables bytes.now result numbers.old numbers.new }
{
    read_within(bytes, MAX_VARIABLES, numbers)
}
