// A run of a sector's bytes, written and read.
ghost use Rattle.std.specs.Prelude.{◌≡◌, ◌+◌, ◌≤◌, ◌<◌, length};
ghost use Rattle.std.proofs.lemmas.List.Edits.{sets};
ghost use Rattle.layout.specs.Basics.{values_from};
ghost use Rattle.layout.specs.Image.{Whole, geometry_of, disk, write_run};

use super::copy::copy;
use image::bytes::start;
use layout::density::Medium;

// The bytes of `from` written to a sector, from `place` on.
pub fn write_run(m: Medium, image: &mut [u8], sector: u16, place: usize, from: &[u8])
    requires { Whole m image.old × (4 ≤ sector) × (sector ≤ 720) × (place + length from.now ≤ (geometry_of m).size sector) }
    ensures { disk m image.new ≡ write_run (disk m image.old) sector place from.now }
{
    let first = start(m, sector) + place;
    copy(image, first, from);
}

// Bytes of a sector, `n` of them from `place` on, stored in the buffer from `at` on.
pub fn get_run(
    m: Medium,
    image: &[u8],
    sector: u16,
    place: usize,
    n: usize,
    buffer: &mut [u8],
    at: usize,
)
    requires { Whole m image.now × (4 ≤ sector) × (sector ≤ 720) × (place + n ≤ (geometry_of m).size sector) × (at + n ≤ length buffer.old) }
    ensures { buffer.new ≡ sets buffer.old at (values_from (disk m image.now sector) n place) }
{
    let first = start(m, sector) + place;
    let end = first + n;
    copy(buffer, at, &image[first..end]);
}

// All data bytes of the sector that starts at `start`. By itself: their number is the density's, a constant where that is one, and no start is worked out.
pub fn get_data(m: Medium, image: &[u8], sector: u16, start: usize, buffer: &mut [u8], at: usize)
    requires { Whole m image.now × (4 ≤ sector) × (sector ≤ 720) × (start ≡ (geometry_of m).start sector) × (at + m.density.room ≤ length buffer.old) }
    ensures { buffer.new ≡ sets buffer.old at (values_from (disk m image.now sector) m.density.room 0) }
{
    let end = start + m.density.room;
    copy(buffer, at, &image[start..end]);
}
