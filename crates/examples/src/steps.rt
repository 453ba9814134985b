// What the orders are made of: calls on channel 0, files made, and sectors read.
ghost use Rattle.std.specs.Prelude.{◌≡◌, length};

use super::told::Told;
use capi::{dos_cio, dos_sector};

// The most bytes that are put at once: all that a disk of double density has room for.
const MOST: usize = 178871;

// The examples are of disks whose notch is open.
pub const NOTCH_OPEN: u8 = 0;

// Commands of a CIO call by number, and the direction in which a file is written.
const OPEN: u8 = 3;

const GET: u8 = 7;

const PUT: u8 = 11;

const CLOSE: u8 = 12;

const WRITE: u8 = 8;

// The command of a sector call that reads, and the one device and unit.
const READ_SECTOR: u8 = 0x52;

const DEVICE: u8 = 0x31;

const UNIT: u8 = 1;

// A CIO call on channel 0 that moves no bytes.
pub fn call(
    image: &mut [u8],
    words: &mut [u16; 40],
    command: u8,
    direction: u8,
    text: &[u8],
) -> Told {
    Told::from(dos_cio(
        image,
        words,
        NOTCH_OPEN,
        0,
        command,
        direction,
        text,
        &mut [],
    ))
}

// A get on channel 0 that fills the buffer.
pub fn get(image: &mut [u8], words: &mut [u16; 40], buffer: &mut [u8]) -> Told {
    Told::from(dos_cio(image, words, NOTCH_OPEN, 0, GET, 0, b"", buffer))
}

// So many letters. From a function of its own an array is known by its length alone; what is proved of one that is written out takes time for each byte.
fn letters() -> [u8; MOST]
    ensures { 178871 ≡ length result }
{
    [b'X'; MOST]
}

// A put of n bytes on channel 0, which begin XYZ. More than the most are not put, and a status of 0 tells it. Never inlined, so that its bytes take up the stack once, whoever calls it.
#[inline(never)]
pub fn put(image: &mut [u8], words: &mut [u16; 40], n: usize) -> Told {
    if MOST < n {
        return Told::from(0);
    }
    let mut bytes = letters();
    bytes[1] = b'Y';
    bytes[2] = b'Z';
    let text = &mut bytes[..n];
    Told::from(dos_cio(image, words, NOTCH_OPEN, 0, PUT, 0, b"", text))
}

// A file made of so many bytes: the first of what open, put and close tell that is no success, or the last.
pub fn make(image: &mut [u8], text: &[u8], n: usize) -> Told {
    let mut words = [0u16; 40];
    let opened = call(image, &mut words, OPEN, WRITE, text);
    let written = put(image, &mut words, n);
    let closed = call(image, &mut words, CLOSE, 0, text);
    [opened, written]
        .into_iter()
        .find(|told| !told.succeeded())
        .unwrap_or(closed)
}

// Files of one byte, up to 64: how many were made.
pub fn fill_directory(image: &mut [u8]) -> u8 {
    for i in 0..64 {
        let text = [b'D', b':', b'A' + i / 8, b'A' + i % 8, 0x9B];
        if !make(image, &text, 1).succeeded() {
            return i;
        }
    }
    64
}

// A sector read, as many bytes as the buffer has.
pub fn read(image: &mut [u8], sector: u16, buffer: &mut [u8]) -> Told {
    Told::from(dos_sector(image, NOTCH_OPEN, DEVICE, UNIT, READ_SECTOR, sector, buffer))
}
