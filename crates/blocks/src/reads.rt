// Reading standard input.
ghost use Rattle.blocks.specs.Reading.{Within};

use crate::ReadFailed;
use std::io::{Read, Stdin};

// Reads once into the front of the buffer, and gives how many bytes.
pub(crate) fn read(stdin: Stdin, buffer: &mut [u8]) -> Result<usize, ReadFailed>
    ensures { Within buffer.new result }
{
    let mut input = stdin;
    input.read(buffer).map_err(|_| ReadFailed)
}
