// Decides the list of a file on standard input, and prints the answer. All that matters is in `report_input`, which judges
// an input longer than the buffer as if it had been read whole; here is only reading and writing. An input that can't be
// read is not judged.

#![tactic(auto)]

ghost use Rattle.std.specs.Io.{ReadsAtMost};

use file_report::{INPUT_SIZE, TEXT_SIZE, report_input};
use std::io;
use std::io::Read;

// Reads until the input ends or the buffer is full, and says how many bytes were read. A read that fails ends it, also one
// that a signal interrupts, which std's methods would try again.
fn read_input<R: Read>(reader: &mut R, buffer: &mut [u8]) -> io::Result<usize>
    ensures { ReadsAtMost result buffer.new }
{
    let mut count = 0;
    while count < buffer.len() {
        let more = reader.read(&mut buffer[count..])?;
        if more == 0 {
            break;
        }
        count += more;
    }
    Ok(count)
}

fn main(rt: HostRuntime) -> io::Result<()> {
    let mut buffer = [0u8; INPUT_SIZE];
    let Ok(count) = read_input(&mut rt.stdin(), &mut buffer) else {
        return rt.write_all(b"read failed\n");
    };
    let mut text = [0u8; TEXT_SIZE];
    let size = report_input(&buffer, count, &mut text);
    rt.write_all(&text[..size])
}
