// Standard input, read whole.
ghost use Rattle.std.specs.Prelude.{◌≡◌, length, replicate};
ghost use Rattle.checks.specs.Stdin.{input_room, Fits};

use crate::InputError;
use std::io::Read;

// The bytes that a program has for its input: seven of the longest lists, a word being nine bytes of text.
pub const INPUT_ROOM: usize = 4194304;

// Room for it, as a function of its own: proofs take the array by its length, as it is too long to compute with.
pub fn input_room() -> [u8; INPUT_ROOM]
    ensures answer { result ≡ replicate input_room 0 }
    ensures len { input_room ≡ length result }
{
    [0; INPUT_ROOM]
}

// Reads all of standard input to the start of room, and answers how many bytes it has. A read that fails is no end: what came
// before it is not the input.
pub fn read_input(rt: &HostRuntime, room: &mut [u8]) -> Result<usize, InputError>
    ensures { Fits result (length room.old) }
{
    let mut input = rt.stdin();
    let mut chunk = io::large_buffer();
    let mut n = 0;
    // No count to take a `for` over: the input says when it ends.
    loop {
        let more = input.read(&mut chunk).map_err(|_| InputError::Unreadable)?;
        if more == 0 {
            return Ok(n);
        }
        if room.len() - n < more {
            return Err(InputError::TooLong);
        }
        room[n..n + more].copy_from_slice(&chunk[..more]);
        n += more;
    }
}
