// The sheet on standard input, as the programs of documents 01 and 02 read it.
#![tactic(auto)]

ghost use Rattle.std.specs.Prelude.{◌≡◌, ◌≤◌, length, take, IfOk};
ghost use Rattle.std.specs.Io.{ReadsAtMost};
ghost use Rattle.io.specs.Counts.{IsPrefixLen};

use std::io;
use std::io::Read;

// "at most 707 bytes": one more than the longest sheet has, so that a byte too many is seen.
pub const ROOM: usize = 707;

// What was read, the first `size` of `bytes`.
#[derive(Clone, Copy)]
pub struct Input {
    pub bytes: [u8; ROOM],
    pub size: usize,
    pub ghost within: { IsPrefixLen size bytes },
}

impl Input {
    // The bytes that were read.
    pub fn as_slice(&self) -> &[u8]
        ensures read { result.now ≡ take self.now.size self.now.bytes }
        ensures most { length result.now ≤ 707 }
    {
        &self.bytes[..self.size]
    }
}

// Reads until `bytes` is full or the input ends, and answers how many bytes it put at the start of `bytes`, or why a read failed. (A loop by
// hand: `read_to_end` would take memory for a longer input, and `read_exact` fails on a shorter one.)
fn read_bytes(input: &mut impl Read, bytes: &mut [u8]) -> io::Result<usize>
    requires { length bytes.old ≤ 707 }
    ensures { ReadsAtMost result bytes.new }
{
    let mut size = 0;
    while size < bytes.len() {
        let more = input.read(&mut bytes[size..])?;
        if more == 0 {
            return Ok(size);
        }
        size += more;
    }
    Ok(size)
}

// "It reads a sheet of at most 707 bytes from standard input (further bytes are not read)", in whatever pieces they come; or why a read
// failed.
pub fn read_sheet(input: &mut impl Read) -> io::Result<Input>
    ensures most { IfOk result (λ input. input.size ≤ 707) }
{
    let mut bytes = [0u8; ROOM];
    let size = read_bytes(input, &mut bytes)?;
    Ok(Input { bytes, size })
}
