// The records of a file for lists: a two-byte length of the body, the two-byte number of its kind, the body, all little-endian.

#![tactic(auto)]

ghost use Rattle.std.specs.Prelude.{◌≡◌, ◌+◌, ◌*◌, ◌^◌, ◌<◌, ◌≤◌, length, Ok, Some};
ghost use Rattle.lines.specs.Limits.{line_size};
ghost use Rattle.file_records.specs.Table.{header_size, number_of_kind, kind_numbered, size_if, record_size_lem, le16, kind_number_at_lem, kind_at_lem, numbered_size_lem, record_size_at_lem};
ghost use Rattle.file_records.specs.Refusal.{file_number, file_place};
ghost use Rattle.file_records.specs.Table as table;
ghost use Rattle.file_records.specs.declared.FileRefusal.TheVariants.{List};
ghost use Rattle.file_records.specs.Scan as scanned;
ghost use Rattle.file_records.specs.Laws.{InFile};

use lines::limits::LINE_SIZE;
use lines::{Numbered, Refusal, number_and_place, numbered_at};
use little_endian::{i32_at, u32_at};

// The bytes before a body: its length and its kind's number.
pub const HEADER_SIZE: usize = 4;
// The bytes of a number.
pub const NUMBER_BYTES: usize = 4;
// The numbers of a line but the last, its identifier.
pub const BARE_SIZE: usize = LINE_SIZE - 1;

// What a record holds: n; one line, whose identifier is 0; the end; one line with its identifier, which is not 0. Each has
// its number in a file.
#[derive(Clone, Copy, PartialEq, Eq)]
pub enum Kind {
    Variables = 1,
    Line = 2,
    End = 3,
    Identified = 4,
}

impl Kind {
    const ALL: [Kind; 4] = [Kind::Variables, Kind::Line, Kind::End, Kind::Identified];

    pub fn number(self) -> usize
        ensures { result ≡ number_of_kind self }
    {
        self as usize
    }

    #[tactic(auto, unfolding(crate::specs::Table::kind_numbered))]
    fn numbered(number: usize) -> Option<Kind>
        ensures { result ≡ kind_numbered number }
    {
        Kind::ALL
            .iter()
            .copied()
            .find(|kind| kind.number() == number)
    }

    // The length of the body, by the table in specs/.
    pub fn body_size(self) -> usize
        ensures { result ≡ table.body_size_lem self }
    {
        match self {
            Kind::Variables => NUMBER_BYTES,
            Kind::Line => NUMBER_BYTES * BARE_SIZE,
            Kind::End => 0,
            Kind::Identified => NUMBER_BYTES * LINE_SIZE,
        }
    }

    // Whether the record is a line.
    pub fn is_line(self) -> bool
        ensures { result ≡ table.is_line self }
    {
        matches!(self, Kind::Line | Kind::Identified)
    }
}

// What is wrong with a file, each with the byte offset of its record, or with its list.
#[derive(Clone, Copy)]
pub enum FileRefusal {
    Cut(usize),
    UnknownKind(usize),
    WrongLength(usize),
    OutOfPlace(usize),
    Trailing(usize),
    NoRoom(usize),
    NoIdentifier(usize),
    List(Refusal),
}

impl From<Refusal> for FileRefusal {
    ghost from_gives = { λ r e. e ≡ List r };

    fn from(r: Refusal) -> FileRefusal {
        FileRefusal::List(r)
    }
}

// Where the next record begins, and what was read before it.
#[derive(Clone, Copy)]
pub struct Cursor {
    pub at: usize,
    pub n: usize,
    pub begun: bool,
    pub lines: usize,
}

// What a record that is not refused leaves: more to read, or the end.
#[derive(Clone, Copy)]
pub enum Next {
    More(Cursor),
    End(Cursor),
}

// The number and the place of each refusal: the byte offset of its record, or the specification's of its list.
pub fn file_number_and_place(r: FileRefusal) -> Numbered
    ensures { (result.number ≡ file_number r) × (result.place ≡ file_place r) }
{
    match r {
        FileRefusal::Cut(k) => numbered_at(20, k),
        FileRefusal::UnknownKind(k) => numbered_at(21, k),
        FileRefusal::WrongLength(k) => numbered_at(22, k),
        FileRefusal::OutOfPlace(k) => numbered_at(23, k),
        FileRefusal::Trailing(k) => numbered_at(24, k),
        FileRefusal::NoRoom(k) => numbered_at(25, k),
        FileRefusal::NoIdentifier(k) => numbered_at(26, k),
        FileRefusal::List(r) => number_and_place(r),
    }
}

// Two bytes of the file, the first the lowest.
fn u16_at(bytes: &[u8], at: usize) -> usize
    requires { at + 2 ≤ length bytes.now }
    ensures { (result ≡ le16 bytes.now at) × (result < 2 ^ 16) }
{
    usize::from(bytes[at]) + usize::from(bytes[at + 1]) * 256
}

// The number of the kind of the record that begins at `at`, also one that no kind has.
pub fn kind_number_at(bytes: &[u8], at: usize) -> usize
    requires { at + header_size ≤ length bytes.now }
    ensures { result ≡ kind_number_at_lem bytes.now at }
{
    u16_at(bytes, at + HEADER_SIZE / 2)
}

// The kind of the record that begins at `at`.
pub fn kind_at(bytes: &[u8], at: usize) -> Option<Kind>
    requires { at + header_size ≤ length bytes.now }
    ensures { result ≡ kind_at_lem bytes.now at }
{
    Kind::numbered(kind_number_at(bytes, at))
}

// The length of the body of the kind with this number, if a kind has it.
pub fn body_size(number: usize) -> Option<usize>
    ensures { result ≡ size_if (kind_numbered number) }
{
    Kind::numbered(number).map(Kind::body_size)
}

// The bytes of a record of this kind.
pub fn record_size(kind: Kind) -> usize
    ensures { result ≡ record_size_lem kind }
{
    HEADER_SIZE + kind.body_size()
}

// The same by a kind's number: those of a header where no kind has it.
pub fn numbered_record_size(number: usize) -> usize
    ensures { result ≡ numbered_size_lem number }
{
    Kind::numbered(number).map_or(HEADER_SIZE, record_size)
}

// The bytes of the record at `at`, by its kind.
pub fn record_size_at(bytes: &[u8], at: usize) -> usize
    requires { at + header_size ≤ length bytes.now }
    ensures { result ≡ record_size_at_lem bytes.now at }
{
    numbered_record_size(kind_number_at(bytes, at))
}

// Whether a record of n comes later than first, or another record comes first.
fn out_of_place(cursor: Cursor, kind: Kind) -> bool
    ensures { result ≡ scanned.out_of_place_lem cursor kind }
{
    cursor.begun == (kind == Kind::Variables)
}

// Whether the record at `at` is a line with its identifier, which is 0.
fn no_identifier(bytes: &[u8], at: usize, kind: Kind) -> bool
    requires { at + record_size_lem kind ≤ length bytes.now }
    ensures { result ≡ scanned.no_identifier_lem bytes.now at kind }
{
    kind == Kind::Identified && i32_at(bytes, at + HEADER_SIZE + NUMBER_BYTES * BARE_SIZE) == 0
}

// Whether the record is a line for which the list's buffer has no room.
fn no_room(room: usize, cursor: Cursor, kind: Kind) -> bool
    requires { line_size * (cursor.lines + 1) < 2 ^ 64 }
    ensures { result ≡ scanned.no_room_lem room cursor kind }
{
    kind.is_line() && room < LINE_SIZE * (cursor.lines + 1)
}

// A whole record in its place: n is kept, a line is counted.
fn taken(bytes: &[u8], cursor: Cursor, kind: Kind) -> Next
    requires { InFile bytes.now cursor × (cursor.at + record_size_lem kind ≤ length bytes.now) }
    ensures { result ≡ scanned.taken bytes.now cursor kind }
{
    let at = cursor.at + record_size(kind);
    match kind {
        Kind::Variables => Next::More(Cursor {
            at,
            n: u32_at(bytes, cursor.at + HEADER_SIZE) as usize,
            begun: true,
            ..cursor
        }),
        Kind::Line | Kind::Identified => Next::More(Cursor {
            at,
            lines: cursor.lines + 1,
            ..cursor
        }),
        Kind::End => Next::End(Cursor { at, ..cursor }),
    }
}

// A record of a known kind: 22, 20 for a cut body, 23, 26, 25; or it is taken.
fn placed(bytes: &[u8], room: usize, cursor: Cursor, kind: Kind) -> Result<Next, FileRefusal>
    requires { InFile bytes.now cursor × (cursor.at + header_size ≤ length bytes.now) }
    ensures { result ≡ scanned.placed bytes.now room cursor (Some kind) }
{
    if u16_at(bytes, cursor.at) != kind.body_size() {
        return Err(FileRefusal::WrongLength(cursor.at));
    }
    if bytes.len() < cursor.at + record_size(kind) {
        return Err(FileRefusal::Cut(cursor.at));
    }
    if out_of_place(cursor, kind) {
        return Err(FileRefusal::OutOfPlace(cursor.at));
    }
    if no_identifier(bytes, cursor.at, kind) {
        return Err(FileRefusal::NoIdentifier(cursor.at));
    }
    if no_room(room, cursor, kind) {
        return Err(FileRefusal::NoRoom(cursor.at));
    }
    Ok(taken(bytes, cursor, kind))
}

// The record at the cursor: 20 for a cut header and 21 go first.
#[tactic(auto, unfolding(crate::specs::Scan::next_record_lem))]
fn next_record(bytes: &[u8], room: usize, cursor: Cursor) -> Result<Next, FileRefusal>
    requires { InFile bytes.now cursor }
    ensures { result ≡ scanned.next_record_lem bytes.now room cursor }
{
    if bytes.len() < cursor.at + HEADER_SIZE {
        return Err(FileRefusal::Cut(cursor.at));
    }
    match kind_at(bytes, cursor.at) {
        Some(kind) => placed(bytes, room, cursor, kind),
        None => Err(FileRefusal::UnknownKind(cursor.at)),
    }
}

// The end is the end of the file, or 24 at the first byte after it.
fn whole_file(bytes: &[u8], cursor: Cursor) -> Result<Cursor, FileRefusal>
    ensures { result ≡ scanned.whole_file_lem bytes.now (Ok cursor) }
{
    if cursor.at < bytes.len() {
        return Err(FileRefusal::Trailing(cursor.at));
    }
    Ok(cursor)
}

// What the records of a file say: n and the number of lines at the end, or the first refusal.
pub fn scan(bytes: &[u8], room: usize) -> Result<Cursor, FileRefusal>
    ensures { result ≡ scanned.scan bytes.now room }
{
    let mut cursor = Cursor {
        at: 0,
        n: 0,
        begun: false,
        lines: 0,
    };
    loop {
        match next_record(bytes, room, cursor)? {
            Next::More(c) => {
                cursor = c;
            }
            Next::End(c) => {
                return whole_file(bytes, c);
            }
        }
    }
}
