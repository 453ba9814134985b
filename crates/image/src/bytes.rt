// Bytes of a sector, read and written. Only `byte_at` and `write_file_byte` here, and `entry_at` of slot.rt, look at the image itself.
ghost use Rattle.std.specs.Prelude.{◌≡◌, ◌+◌, ◌-◌, ◌*◌, ◌≤◌, ◌<◌};
ghost use Rattle.layout.specs.Image.{Regular, Whole, geometry_of, disk, write_byte, word, write_word};

use layout::density::{Density, Medium};

// Where a sector starts, from the fourth on. One product and no branch, so that the same place computed again costs nothing and a walk in the disk's order only adds.
pub fn start(m: Medium, sector: u16) -> usize
    requires { Regular m × (4 ≤ sector) × (sector ≤ 720) }
    ensures { (result ≡ (geometry_of m).start sector) × (result + (geometry_of m).size sector ≤ (geometry_of m).total) }
{
    m.header + Density::BOOT_BYTES + (sector as usize - 4) * m.density.size
}

// One byte of the sector that starts at `at`.
pub fn byte_at(m: Medium, image: &[u8], sector: u16, at: usize, place: usize) -> u8
    requires { Whole m image.now × (4 ≤ sector) × (sector ≤ 720) × (at ≡ (geometry_of m).start sector) × (place < m.density.size) }
    ensures { result ≡ disk m image.now sector place }
{
    image[at + place]
}

// One byte of a file sector, which has all of its places in use.
pub fn file_byte(m: Medium, image: &[u8], sector: u16, place: usize) -> u8
    requires { Whole m image.now × (4 ≤ sector) × (sector ≤ 720) × (place < m.density.size) }
    ensures { result ≡ disk m image.now sector place }
{
    byte_at(m, image, sector, start(m, sector), place)
}

// It written.
pub fn write_file_byte(m: Medium, image: &mut [u8], sector: u16, place: usize, value: u8)
    requires { Whole m image.old × (4 ≤ sector) × (sector ≤ 720) × (place < m.density.size) }
    ensures { disk m image.new ≡ write_byte (disk m image.old) sector place value }
{
    image[start(m, sector) + place] = value;
}

// One byte of a sector's first 128, which are all that the volume table and the directory have.
pub fn byte(m: Medium, image: &[u8], sector: u16, place: usize) -> u8
    requires { Whole m image.now × (4 ≤ sector) × (sector ≤ 720) × (place < 128) }
    ensures { result ≡ disk m image.now sector place }
{
    file_byte(m, image, sector, place)
}

// It written.
pub fn write_byte(m: Medium, image: &mut [u8], sector: u16, place: usize, value: u8)
    requires { Whole m image.old × (4 ≤ sector) × (sector ≤ 720) × (place < 128) }
    ensures { disk m image.new ≡ write_byte (disk m image.old) sector place value }
{
    write_file_byte(m, image, sector, place, value);
}

// Two bytes, low byte first.
pub fn word(m: Medium, image: &[u8], sector: u16, place: usize) -> u16
    requires { Whole m image.now × (4 ≤ sector) × (sector ≤ 720) × (place < 127) }
    ensures { result ≡ word (disk m image.now sector) place }
{
    let low = byte(m, image, sector, place);
    let high = byte(m, image, sector, place + 1);
    u16::from_le_bytes([low, high])
}

// Two bytes written; a value's higher bits are dropped.
#[tactic(auto, unfolding(layout::specs::Image::write_word))]
pub fn write_word(m: Medium, image: &mut [u8], sector: u16, place: usize, value: u32)
    requires { Whole m image.old × (4 ≤ sector) × (sector ≤ 720) × (place < 127) }
    ensures { disk m image.new ≡ write_word (disk m image.old) sector place value }
{
    let [low, high, ..] = value.to_le_bytes();
    write_byte(m, image, sector, place, low);
    write_byte(m, image, sector, place + 1, high);
}
