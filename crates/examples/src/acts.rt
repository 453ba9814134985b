// What an order does, by the functions that C calls. The words and what each prints stand in main.rt.
ghost use Rattle.std.specs.Prelude.{◌≤◌};

use super::order::{Order, Shown};
use super::steps::{NOTCH_OPEN, call, fill_directory, get, make, put, read};
use super::told::Told;
use capi::{dos_header, dos_name, dos_recover};
use layout::density::{Density, Medium};
use std::io;

// The status of a result.
fn status(rt: &impl Print, told: Told) -> io::Result<()> {
    print!(rt; "{}", told.status)
}

// A get of n bytes, modulo 257: status and count, and the buffer's first three bytes.
fn show_get(rt: &impl Print, image: &mut [u8], words: &mut [u16; 40], n: usize) -> io::Result<()> {
    let mut bytes = [b'-'; 256];
    let told = get(image, words, &mut bytes[..n % 257]);
    print!(rt; "{told} ")?;
    rt.write_all(&bytes[..3])
}

// A sector read into n bytes, modulo 257: status and count.
fn show_read(rt: &impl Print, image: &mut [u8], sector: u16, n: usize) -> io::Result<()> {
    let mut bytes = [0; 256];
    let told = read(image, sector, &mut bytes[..n % 257]);
    print!(rt; "{told}")
}

// Two bytes in a row, as a byte, a word, a slot's number or a link.
fn show(rt: &impl Print, shown: Shown, x: u8, y: u8) -> io::Result<()> {
    let (x, y) = (x as u16, y as u16);
    match shown {
        Shown::Byte => print!(rt; "{x:02x}"),
        Shown::Value => print!(rt; "{}", x + 256 * y),
        Shown::Slot => print!(rt; "{}", x / 4),
        Shown::Link => print!(rt; "{}", 256 * (x % 4) + y),
    }
}

// How many bytes the sectors from the fourth on have.
fn sector_size(length: usize) -> usize
    ensures { result ≤ 256 }
{
    if length == Medium::DOUBLE_ATR_BYTES {
        return Density::DOUBLE_SIZE;
    }
    Density::SINGLE_SIZE
}

// Two bytes of a sector, shown, where a sector can have the first.
fn show_place(
    rt: &impl Print,
    image: &mut [u8],
    shown: Shown,
    sector: u16,
    place: usize,
) -> io::Result<()> {
    let mut bytes = [0; 257];
    let size = sector_size(image.len());
    read(image, sector, &mut bytes[..size]);
    if place < 256 {
        show(rt, shown, bytes[place], bytes[place + 1])?;
    }
    Ok(())
}

// A byte of the image, where it has that one.
fn show_byte(rt: &impl Print, image: &[u8], at: usize) -> io::Result<()> {
    if let Some(byte) = image.get(at) {
        print!(rt; "{byte:02x}")?;
    }
    Ok(())
}

// An order done.
pub fn act(
    rt: &impl Print,
    image: &mut [u8],
    words: &mut [u16; 40],
    order: Order<'_>,
) -> io::Result<()> {
    match order {
        Order::Call {
            command,
            direction,
            name,
        } => {
            words[0] = 0;
            status(rt, call(image, words, command, direction, name))
        }
        Order::Get(n) => show_get(rt, image, words, n),
        Order::Write(n) => print!(rt; "{}", put(image, words, n)),
        Order::Make { size, name } => status(rt, make(image, name, size)),
        Order::Fill => print!(rt; "{}", fill_directory(image)),
        Order::Name(text) => status(rt, Told::from(dos_name(text, &mut [0; 11]))),
        Order::Undelete(slot) => {
            print!(rt; "{}", Told::from(dos_recover(image, NOTCH_OPEN, slot)))
        }
        Order::Header => status(rt, Told::from(dos_header(image, NOTCH_OPEN))),
        Order::Read { sector, size } => show_read(rt, image, sector, size),
        Order::Show {
            shown,
            sector,
            place,
        } => show_place(rt, image, shown, sector, place),
        Order::Image(at) => show_byte(rt, image, at),
    }
}
