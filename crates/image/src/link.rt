// The last three bytes of a file sector: slot number and next sector, and the bytes in use.
ghost use Rattle.std.specs.Prelude.{◌≡◌, ◌+◌, ◌-◌, ◌*◌, ◌≤◌, ◌<◌};
ghost use Rattle.layout.specs.Image.{Whole, geometry_of, disk};
ghost use Rattle.layout.specs.File.{owner, next, in_use, write_link, write_in_use};

use super::bytes::{byte_at, file_byte, start, write_file_byte};
use layout::density::{Density, Medium};

// The first of them, upper six bits: the slot number.
pub fn owner(m: Medium, image: &[u8], sector: u16) -> u16
    requires { Whole m image.now × (4 ≤ sector) × (sector ≤ 720) }
    ensures { result ≡ owner (geometry_of m) (disk m image.now sector) }
{
    (file_byte(m, image, sector, m.density.room) / 4) as u16
}

// The next sector: the lower two bits of the first, and the second.
pub fn next(m: Medium, image: &[u8], sector: u16) -> u16
    requires { Whole m image.now × (4 ≤ sector) × (sector ≤ 720) }
    ensures { result ≡ next (geometry_of m) (disk m image.now sector) }
{
    let high = file_byte(m, image, sector, m.density.room);
    let low = file_byte(m, image, sector, m.density.room + Density::NEXT);
    u16::from_be_bytes([high % 4, low])
}

// The last: bytes in use.
pub fn in_use(m: Medium, image: &[u8], sector: u16) -> u8
    requires { Whole m image.now × (4 ≤ sector) × (sector ≤ 720) }
    ensures { result ≡ in_use (geometry_of m) (disk m image.now sector) }
{
    used_at(m, image, sector, start(m, sector))
}

// The first two as one number, read at once, of the sector that starts at `at`.
pub fn link_at(m: Medium, image: &[u8], sector: u16, at: usize) -> u16
    requires { Whole m image.now × (4 ≤ sector) × (sector ≤ 720) × (at ≡ (geometry_of m).start sector) }
    ensures { let t = disk m image.now sector in result ≡ owner (geometry_of m) t * 1024 + next (geometry_of m) t }
{
    let high = byte_at(m, image, sector, at, m.density.room);
    let low = byte_at(m, image, sector, at, m.density.room + Density::NEXT);
    u16::from_be_bytes([high, low])
}

// The last, of the sector that starts at `at`.
pub fn used_at(m: Medium, image: &[u8], sector: u16, at: usize) -> u8
    requires { Whole m image.now × (4 ≤ sector) × (sector ≤ 720) × (at ≡ (geometry_of m).start sector) }
    ensures { result ≡ in_use (geometry_of m) (disk m image.now sector) }
{
    byte_at(m, image, sector, at, m.density.room + Density::USED)
}

// Slot number and next sector written.
#[tactic(auto, unfolding(layout::specs::File::write_link))]
pub fn write_link(m: Medium, image: &mut [u8], sector: u16, slot: u16, next: u16)
    requires { Whole m image.old × (4 ≤ sector) × (sector ≤ 720) × (slot < 64) × (next < 1024) }
    ensures { disk m image.new ≡ write_link (geometry_of m) (disk m image.old) sector slot next }
{
    let [high, low] = (slot * 1024 + next).to_be_bytes();
    write_file_byte(m, image, sector, m.density.room, high);
    write_file_byte(m, image, sector, m.density.room + Density::NEXT, low);
}

// The bytes in use written.
#[tactic(auto, unfolding(layout::specs::File::write_in_use))]
pub fn write_in_use(m: Medium, image: &mut [u8], sector: u16, n: u8)
    requires { Whole m image.old × (4 ≤ sector) × (sector ≤ 720) }
    ensures { disk m image.new ≡ write_in_use (geometry_of m) (disk m image.old) sector n }
{
    write_file_byte(m, image, sector, m.density.room + Density::USED, n);
}
