// A slot of the directory: its bytes, flags, sector count and first sector.
ghost use Rattle.std.specs.Prelude.{◌≡◌, ◌+◌, ◌-◌, ◌*◌, ◌/◌, ◌%◌, ◌≤◌, ◌<◌};
ghost use Rattle.layout.specs.Image.{Regular, Whole, geometry_of, disk};
ghost use Rattle.layout.specs.Directory.{entry, write_entry, flag, write_flag, count, write_count, first, write_first};

use super::bytes::{byte, start, word, write_byte, write_word};
use layout::density::Medium;

// The sector of the directory that a slot is in: each has eight of them in its first 128 bytes.
fn sector_of(slot: u16) -> u16
    ensures { result ≡ 361 + slot / 8 }
{
    361 + slot / 8
}

// The place of a slot's byte j in that sector.
fn place_of(slot: u16, j: usize) -> usize
    requires { j < 16 }
    ensures { result ≡ slot % 8 * 16 + j }
{
    (slot % 8) as usize * 16 + j
}

// Where a slot starts.
pub fn slot_start(m: Medium, slot: u16) -> usize
    requires { Regular m × (slot < 64) }
    ensures { (result ≡ (geometry_of m).start (361 + slot / 8) + slot % 8 * 16) × (result + 16 ≤ (geometry_of m).total) }
{
    start(m, sector_of(slot)) + place_of(slot, 0)
}

// Where a slot starts, from where the one before it does: 16 bytes on, or behind every eighth in the next sector.
pub fn slot_after(m: Medium, slot: u16, at: usize) -> usize
    requires { Regular m × (1 ≤ slot) × (slot ≤ 64) × (at ≡ (geometry_of m).start (361 + (slot - 1) / 8) + (slot - 1) % 8 * 16) }
    ensures { result ≡ (geometry_of m).start (361 + slot / 8) + slot % 8 * 16 }
{
    let size = m.density.size;
    if slot % 8 == 0 {
        return at + size - 7 * 16;
    }
    at + 16
}

// Byte j of the slot that starts at `at`.
pub fn entry_at(m: Medium, image: &[u8], slot: u16, at: usize, j: usize) -> u8
    requires { Whole m image.now × (slot < 64) × (at ≡ (geometry_of m).start (361 + slot / 8) + slot % 8 * 16) × (j < 16) }
    ensures { result ≡ entry (disk m image.now) slot j }
{
    image[at + j]
}

// Byte j of a slot.
pub fn entry(m: Medium, image: &[u8], slot: u16, j: usize) -> u8
    requires { Whole m image.now × (slot < 64) × (j < 16) }
    ensures { result ≡ entry (disk m image.now) slot j }
{
    byte(m, image, sector_of(slot), place_of(slot, j))
}

// Byte j of a slot written.
#[tactic(auto, unfolding(layout::specs::Directory::write_entry))]
pub fn write_entry(m: Medium, image: &mut [u8], slot: u16, j: usize, value: u8)
    requires { Whole m image.old × (slot < 64) × (j < 16) }
    ensures { disk m image.new ≡ write_entry (disk m image.old) slot j value }
{
    write_byte(m, image, sector_of(slot), place_of(slot, j), value);
}

// Byte 0: flags.
pub fn flag(m: Medium, image: &[u8], slot: u16) -> u8
    requires { Whole m image.now × (slot < 64) }
    ensures { result ≡ flag (disk m image.now) slot }
{
    entry(m, image, slot, 0)
}

// The flags written.
#[tactic(auto, unfolding(layout::specs::Directory::write_flag))]
pub fn write_flag(m: Medium, image: &mut [u8], slot: u16, value: u8)
    requires { Whole m image.old × (slot < 64) }
    ensures { disk m image.new ≡ write_flag (disk m image.old) slot value }
{
    write_entry(m, image, slot, 0, value);
}

// Bytes 1 and 2: sector count.
pub fn count(m: Medium, image: &[u8], slot: u16) -> u16
    requires { Whole m image.now × (slot < 64) }
    ensures { result ≡ count (disk m image.now) slot }
{
    word(m, image, sector_of(slot), place_of(slot, 1))
}

// The sector count written.
#[tactic(auto, unfolding(layout::specs::Directory::write_count, layout::specs::Directory::write_entry, layout::specs::Image::write_word))]
pub fn write_count(m: Medium, image: &mut [u8], slot: u16, n: u32)
    requires { Whole m image.old × (slot < 64) }
    ensures { disk m image.new ≡ write_count (disk m image.old) slot n }
{
    write_word(m, image, sector_of(slot), place_of(slot, 1), n);
}

// Bytes 3 and 4: first sector.
pub fn first(m: Medium, image: &[u8], slot: u16) -> u16
    requires { Whole m image.now × (slot < 64) }
    ensures { result ≡ first (disk m image.now) slot }
{
    word(m, image, sector_of(slot), place_of(slot, 3))
}

// The first sector written.
#[tactic(auto, unfolding(layout::specs::Directory::write_first, layout::specs::Directory::write_entry, layout::specs::Image::write_word))]
pub fn write_first(m: Medium, image: &mut [u8], slot: u16, sector: u16)
    requires { Whole m image.old × (slot < 64) }
    ensures { disk m image.new ≡ write_first (disk m image.old) slot sector }
{
    write_word(
        m,
        image,
        sector_of(slot),
        place_of(slot, 3),
        u32::from(sector),
    );
}
