// What the program does: the bytes of a file read, its list decided, and the answer as text.

#![tactic(auto)]

ghost use Rattle.std.specs.Prelude.{take};
ghost use Rattle.file_text.specs.Text.{no_text};
ghost use Rattle.file_text.specs.Put.{Wrote};
ghost use Rattle.file_report.specs.Report.{Behind, Decided, Reported};
ghost use Rattle.file_report.specs.Input.{InputReported};
ghost use Rattle.check_soundness.specs.Head.{stated};
ghost use Rattle.file_report.specs.Ready.{RefutationReady, ListReady};

use check_refutation::HEAD_SIZE;
use decide::{Answer, decide};
use decide_buffers::{
    FEW_BOUNDS, FEW_GROUPS, FEW_IDENTIFIERS, FEW_MODEL, FEW_REFUTATION, FEW_VARIABLES, FEW_WORK,
    bounds_room, groups_room, model_room,
};
use file_list::{LONGEST_LINE_RECORD, VARIABLES_RECORD, read_within};
use file_records::file_number_and_place;
use file_text::{write_no, write_refused, write_yes};
use lines::limits::LINE_SIZE;

// The program's own limits.
const MOST_VARIABLES: usize = FEW_VARIABLES;

const MOST_LINES: usize = 256;
// The numbers of so many lines.
const MOST_NUMBERS: usize = LINE_SIZE * MOST_LINES;
// Nothing beyond the bytes of so many lines, and of one line more, is looked at, each as long as a line can be.
pub const INPUT_SIZE: usize = VARIABLES_RECORD + LONGEST_LINE_RECORD * (MOST_LINES + 1);
// The text of so many variables takes less.
pub const TEXT_SIZE: usize = 4_096;

// The refutation that deciding left: as many numbers as its counts say.
fn report_no(refutation: &[u32], text: &mut [u8]) -> usize
    requires { RefutationReady refutation.now text.old }
    ensures { Wrote (no_text (stated refutation.now)) text.old text.new result }
{
    let count = HEAD_SIZE + refutation[1] as usize + refutation[2] as usize;
    write_no(&refutation[..count], text)
}

// A list decided, as text.
fn report_list(n: usize, list: &[i32], text: &mut [u8]) -> usize
    requires { ListReady n list.now text.old }
    ensures { Decided n list.now (take result text.new) × Behind text.old text.new result }
{
    let mut model = [0i32; FEW_MODEL];
    let mut bounds = [0i64; FEW_BOUNDS];
    let mut groups = [0u32; FEW_GROUPS];
    let mut refutation = [0u32; FEW_REFUTATION];
    let mut identifiers = [0u32; FEW_IDENTIFIERS];
    let mut work = [0i64; FEW_WORK];
    let decided = decide(
        n,
        list,
        &mut model,
        &mut bounds,
        &mut groups,
        &mut refutation,
        &mut identifiers,
        &mut work,
    );
    // The list is valid, and the buffers are as long as this many variables need.
    let answer = decided.unwrap();
    match answer {
        Answer::Yes => write_yes(
            n,
            &model[..model_room(n)],
            &bounds[..bounds_room(n)],
            &groups[..groups_room(n)],
            text,
        ),
        Answer::No => report_no(&refutation, text),
    }
}

// What the program prints for the bytes of a file: how many bytes of text stand in front.
pub fn report_file(bytes: &[u8], text: &mut [u8; TEXT_SIZE]) -> usize
    ensures { Reported bytes.now (take result text.new) × Behind text.old text.new result }
{
    let mut numbers = [0i32; MOST_NUMBERS];
    match read_within(bytes, MOST_VARIABLES, &mut numbers) {
        Ok(z) => report_list(z.n, &numbers[..LINE_SIZE * z.lines], text),
        Err(r) => {
            let numbered = file_number_and_place(r);
            write_refused(numbered.number, numbered.place, text)
        }
    }
}

// What the program prints for an input of any length: the buffer holds as much of it as it takes, `count` bytes.
pub fn report_input(input: &[u8; INPUT_SIZE], count: usize, text: &mut [u8; TEXT_SIZE]) -> usize
    ensures { InputReported input.now count (take result text.new) × Behind text.old text.new result }
{
    report_file(&input[..count.min(INPUT_SIZE)], text)
}
