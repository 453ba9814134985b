// The ten bench examples of document 01, run through the functions that C calls, a line for each, and what is other on a disk of double density.
// The examples are the file `stdin`, one to a line. What stands outside of braces is printed as it is; braces hold an order, and in its
// place is printed what the calls answered, or what the sector call reads back. Orders in place of code keep what is to be proved small:
// an example more is a line more of that file. A `=` outside of braces ends the lines for a raw image and those for a disk of double density.
//   call C D NAME   a CIO command by its number, with a direction and a name, all channels closed before: the status
//   get N           N bytes, modulo 257, from the channel that the last call opened: the status, the count, and the buffer's first three bytes, which were `---`
//   write N         N bytes which begin XYZ, put to the channel: the status and the count; more than 178871 are not put, and status and count are 0
//   make N NAME     a file of N bytes, by open, put and close: the first status that is no success
//   fill            files of one byte until that is refused, at most 64: how many
//   name NAME       a name's status
//   undelete N      recovery of a slot: the status and the count
//   header          the header written: the status
//   read S N        sector S read into N bytes, modulo 257: the status and the count
//   at, value, slot, link S B   byte B of sector S in base 16, with the next one a word, the slot's number or the next sector that they say; nothing where B is past 255
//   image B         byte B of the image in base 16; nothing where the image ends before
// A word is known by its first letter, and each that begins with none of these letters is a `link`, an empty one too: so whatever stands in
// braces is an order. A number is its field's digits, the other bytes skipped; before a further digit is put behind them all but the last five
// go; commands, directions and slots are taken modulo 256, sectors modulo 65536. A field that is not there is 0, or a text of no bytes.
// A brace that nothing closes holds the rest but its last byte. Of the script the first 4096 bytes are run; behind a shorter one stand zero bytes.
#![tactic(auto)]

mod acts;
mod order;
mod script;
mod steps;
mod told;

ghost use Rattle.std.specs.Prelude.{IfOk, ◌≤◌, ◌<◌, length, take};
ghost use Rattle.std.specs.Io.KnownBytes.{Consumes, IsAtEnd};

use layout::density::Medium;
use script::run;
use std::io::{self, Read};

// Reads until the buffer is full or the input ends: how many bytes, which stand at its beginning.
// By a loop of its own: std's `read_exact` takes an input that ends before for a failure, and its `read_to_end` needs a heap.
fn read_full<R: Read>(input: &mut R, buffer: &mut [u8]) -> io::Result<usize>
    ensures bound { IfOk result (λ n. n ≤ length buffer.new) }
    ensures bytes { IfOk result (λ n. Consumes (R.remaining input.old) (R.remaining input.new) (take n buffer.new)) }
    ensures end { IfOk result (λ n. n < length buffer.new → IsAtEnd (R.remaining input.new)) }
{
    let mut done = 0;
    while done < buffer.len() {
        let n = input.read(&mut buffer[done..])?;
        if n == 0 {
            return Ok(done);
        }
        done += n;
    }
    Ok(done)
}

// The ending byte of names is written as a dollar sign.
fn with_endings(script: &mut [u8]) {
    for b in script.iter_mut() {
        if *b == b'$' {
            *b = 0x9B;
        }
    }
}

// The first part of the script, on a raw image: what stands behind it.
fn run_raw<'a>(rt: &impl Print, script: &'a [u8]) -> io::Result<&'a [u8]> {
    run(rt, &mut [77u8; Medium::RAW_BYTES], script)
}

// The other part, on a disk of double density.
fn run_double(rt: &impl Print, script: &[u8]) -> io::Result<()> {
    run(rt, &mut [77u8; Medium::DOUBLE_ATR_BYTES], script)?;
    Ok(())
}

fn main(rt: HostRuntime) -> io::Result<()> {
    let mut script = [0u8; 4096];
    read_full(&mut rt.stdin(), &mut script)?;
    with_endings(&mut script);
    let other = run_raw(&rt, &script)?;
    run_double(&rt, other)
}
