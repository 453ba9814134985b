// Where a sector lies, the first three included, which have 128 bytes in every density.
ghost use Rattle.std.specs.Prelude.{◌≡◌, ◌+◌, ◌≤◌, length};
ghost use Rattle.layout.specs.Basics.{values_from};
ghost use Rattle.layout.specs.Image.{Regular, Whole, geometry_of, disk, write_run};

use image::bytes::start;
use layout::density::{Density, Medium};
use runs::copy::copy_sector;

// Where a sector starts.
pub fn sector_start(m: Medium, sector: u16) -> usize
    requires { Regular m × (1 ≤ sector) × (sector ≤ 720) }
    ensures { (result ≡ (geometry_of m).start sector) × (result + (geometry_of m).size sector ≤ (geometry_of m).total) }
{
    if sector < 4 {
        return m.header + (sector as usize - 1) * Density::BOOT_SIZE;
    }
    start(m, sector)
}

// Its size.
pub fn sector_size(m: Medium, sector: u16) -> usize
    requires { 1 ≤ sector }
    ensures { result ≡ (geometry_of m).size sector }
{
    if sector < 4 {
        return Density::BOOT_SIZE;
    }
    m.density.size
}

// All bytes of a sector, in a buffer of that length.
pub fn read(m: Medium, image: &[u8], sector: u16, buffer: &mut [u8])
    requires { Whole m image.now × (1 ≤ sector) × (sector ≤ 720) × (length buffer.old ≡ (geometry_of m).size sector) }
    ensures { buffer.new ≡ values_from (disk m image.now sector) ((geometry_of m).size sector) 0 }
{
    let first = sector_start(m, sector);
    let end = first + buffer.len();
    copy_sector(buffer, 0, &image[first..end]);
}

// All of them written.
pub fn write(m: Medium, image: &mut [u8], sector: u16, buffer: &[u8])
    requires { Whole m image.old × (1 ≤ sector) × (sector ≤ 720) × (length buffer.now ≡ (geometry_of m).size sector) }
    ensures { disk m image.new ≡ write_run (disk m image.old) sector 0 buffer.now }
{
    let first = sector_start(m, sector);
    copy_sector(image, first, buffer);
}
