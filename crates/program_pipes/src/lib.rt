// The two programs: from a reader of bytes to a writer of bytes.
#![tactic(auto)]

ghost use Rattle.std.specs.Prelude.{◌≡◌, ◌≤◌, ◌<◌, length, IfOk};

use std::io;
use std::io::{Read, Write};

// Reads until buf is full or the input ends, and returns how many bytes it put at the start of buf. A step is as long as what was read.
fn read_full<R: Read>(source: &mut R, buf: &mut [u8]) -> io::Result<usize>
    ensures { IfOk result (λ n. n ≤ length buf.old) }
{
    let mut done = 0;
    while done < buf.len() {
        let n = source.read(&mut buf[done..])?;
        if n == 0 {
            return Ok(done);
        }
        done += n;
    }
    Ok(done)
}

// Reads at most 65,537 bytes, and writes what a program prints for them over the front of N bytes.
fn run<const N: usize, R: Read, W: Write, F: FnOnce(&[u8], &mut [u8]) -> usize>(
    source: &mut R,
    sink: &mut W,
    print: F,
) -> io::Result<()>
    requires small { N < 4294967296 }
    requires can { (input : _) (out : _) → length out.now ≡ N → F.pre print input out }
    requires within { (input : _) (out : _) (n : _) (after : _) → length out.now ≡ N → F.post print input out n after → n ≤ N }
{
    let mut input = [0u8; 65537];
    let n = read_full(source, &mut input)?;
    let mut out = [0u8; N];
    let done = print(&input[..n], &mut out);
    sink.write_all(&out[..done])
}

// Reads at most 65,537 bytes, and writes what the builder prints for them.
pub fn run_builder<R: Read, W: Write>(source: &mut R, sink: &mut W) -> io::Result<()> {
    run::<65536, R, W, _>(source, sink, program_texts::build_text)
}

// Reads at most 65,537 bytes, and writes what the lister prints for them.
pub fn run_lister<R: Read, W: Write>(source: &mut R, sink: &mut W) -> io::Result<()> {
    run::<180224, R, W, _>(source, sink, program_texts::list_text)
}
