// The exported functions that read a list from the bytes of a file and write one. Each answers a struct.

#![tactic(auto)]

ghost use Rattle.std.specs.Prelude.{◌≡◌};
ghost use Rattle.c_files.specs.Files.{file_read, file_written, ReadReturns, WriteReturns};

use file_list::{Listed, read_list, write_list};
use file_records::{FileRefusal, file_number_and_place};

// What reading a file returns: a refusal's number and place, or 0, 0, n and the number of lines.
#[repr(C)]
#[derive(Clone, Copy)]
pub struct FileRead {
    pub refusal: u64,
    pub place: u64,
    pub n: u64,
    pub lines: u64,
}

// What writing a file returns: a refusal's number and place, or 0, 0 and how many bytes were written.
#[repr(C)]
#[derive(Clone, Copy)]
pub struct FileWritten {
    pub refusal: u64,
    pub place: u64,
    pub bytes: u64,
}

// The struct that an answer on a file is returned as.
fn read_result(a: Result<Listed, FileRefusal>) -> FileRead
    ensures { result ≡ file_read a }
{
    match a {
        Ok(z) => FileRead {
            refusal: 0,
            place: 0,
            n: z.n as u64,
            lines: z.lines as u64,
        },
        Err(r) => {
            let numbered = file_number_and_place(r);
            FileRead {
                refusal: numbered.number as u64,
                place: numbered.place as u64,
                n: 0,
                lines: 0,
            }
        }
    }
}

// The struct that an answer on writing is returned as.
fn write_result(a: Result<usize, FileRefusal>) -> FileWritten
    ensures { result ≡ file_written a }
{
    match a {
        Ok(k) => FileWritten {
            refusal: 0,
            place: 0,
            bytes: k as u64,
        },
        Err(r) => {
            let numbered = file_number_and_place(r);
            FileWritten {
                refusal: numbered.number as u64,
                place: numbered.place as u64,
                bytes: 0,
            }
        }
    }
}

// Reads the list of a file into the front of a buffer.
pub fn utvpi_read_list(bytes: &[u8], numbers: &mut [i32]) -> FileRead
    ensures { ReadReturns bytes.now result numbers.old numbers.new }
{
    read_result(read_list(bytes, numbers))
}

// Writes the one file of a list into the front of a buffer.
pub fn utvpi_write_list(n: u64, list: &[i32], out: &mut [u8]) -> FileWritten
    ensures { WriteReturns n list.now result out.old out.new }
{
    write_result(write_list(n as usize, list, out))
}
