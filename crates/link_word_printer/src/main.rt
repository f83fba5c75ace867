// The link word printer (document 01): reads one line and prints what reading it as a link word answers. `main` only moves
// bytes; what is printed is `printer_text::text_of`, which is proved.
#![tactic(auto)]

ghost use Rattle.std.specs.Prelude.{◌+◌, ◌≤◌, length};

use std::io;
use std::io::{Read, Write};

// Reads until a newline has come, the input ends or the buffer is full; answers how many bytes the buffer has. A read that fails ends the
// input. The buffer has a fixed size, since there is no heap for a line of any length.
fn read_line<R: Read>(input: &mut R, buffer: &mut [u8]) -> usize
    ensures { result ≤ length buffer.old }
{
    let mut have = 0;
    while have < buffer.len() {
        let came = input.read(&mut buffer[have..]).unwrap_or(0);
        have += came;
        if came == 0 || buffer[have - came..have].contains(&b'\n') {
            break;
        }
    }
    have
}

fn main(rt: HostRuntime) -> io::Result<()> {
    let mut buffer = [0; 65536];
    let have = read_line(&mut rt.stdin(), &mut buffer);
    let text = printer_text::text_of(&buffer[..have]);
    let bytes = text.bytes;
    let count = text.count;
    rt.stdout().write_all(&bytes[..count])
}
