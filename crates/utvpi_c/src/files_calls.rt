// The exported functions that read a list from the bytes of a file and write one. Each answers a struct.
ghost use Rattle.c_files.specs.Files.{ReadReturns, WriteReturns};

use c_files::{FileRead, FileWritten};

// Reads the list of a file into the front of a buffer.
#[unsafe(no_mangle)]
pub extern "C" fn utvpi_read_list(bytes: &[u8], numbers: &mut [i32]) -> FileRead
    ensures { ReadReturns bytes.now result numbers.old numbers.new }
{
    c_files::utvpi_read_list(bytes, numbers)
}

// Writes the one file of a list into the front of a buffer.
#[unsafe(no_mangle)]
pub extern "C" fn utvpi_write_list(n: u64, list: &[i32], out: &mut [u8]) -> FileWritten
    ensures { WriteReturns n list.now result out.old out.new }
{
    c_files::utvpi_write_list(n, list, out)
}
