// Reading standard input whole, as far as a buffer goes.
#![tactic(auto)]

ghost use Rattle.blocks.specs.Reading.{Within};

use blocks::ReadFailed;
use std::io::{Read, Stdin};

// Reads into the front of the buffer until it is full or the input ends. Where a read fails, what the reads before it brought is left there: no program
// looks at it.
pub fn fill(stdin: Stdin, buffer: &mut [u8]) -> Result<usize, ReadFailed>
    ensures { Within buffer.new result }
{
    let mut input = stdin;
    let mut n = 0;
    while n < buffer.len() {
        let more = input.read(&mut buffer[n..]).map_err(|_| ReadFailed)?;
        if more == 0 {
            break;
        }
        n += more;
    }
    Ok(n)
}
