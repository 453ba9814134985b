// The search for a name, eight of its bytes at once, and a slot's name written.
#![tactic(auto, using(crate::proofs::Search::search_steps, crate::proofs::Bytes::name_steps), unfolding(layout::specs::Directory::another, layout::specs::Directory::write_name))]

ghost use Rattle.std.specs.Prelude.{◌≡◌, ◌+◌, ◌*◌, ◌/◌, ◌%◌, ◌<◌};
ghost use Rattle.layout.specs.Image.{Whole, geometry_of, disk};
ghost use Rattle.layout.specs.Directory.{Below, name, same_name, search, TellsFound, bears_beside, find, another, write_name};
ghost use Rattle.layout.specs.Status.{success, not_found, name_taken};
ghost use Rattle.layout.specs.Names.{name_byte};

use super::flags::standing_flag;
use image::slot::{entry_at, slot_after, slot_start, write_entry};
use layout::density::{Density, Medium};
use names::name_byte;
use runs::words::{slot_extension, slot_last_four_at, slot_name, slot_name_at};

// The last four of a name's eleven bytes as one number, by its two words.
fn last_four(name: u64, extension: u64) -> u64
    ensures { result ≡ name / 72057594037927936 + extension % 16777216 * 256 }
{
    name / 72057594037927936 + extension % 16777216 * 256
}

// The slot that starts at `at` has the name: its eight bytes, and its last once more with the extension, so that each of the two is compared as it is loaded.
fn same_name(m: Medium, image: &[u8], slot: u16, at: usize, name: u64, extension: u64) -> bool
    requires { Whole m image.now × (slot < 64) × (at ≡ (geometry_of m).start (361 + slot / 8) + slot % 8 * 16) }
    ensures { result ≡ same_name (disk m image.now) slot (name_byte name extension) }
{
    (slot_name_at(m, image, slot, at) == name)
        & (slot_last_four_at(m, image, slot, at) == last_four(name, extension))
}

// The first standing slot with the name, slot `beside` left out. Most flags are neither zero nor deleted, so that is tested first. Where a slot starts is handed on.
fn find_slot(m: Medium, image: &[u8], name: u64, extension: u64, beside: u16) -> Option<u16>
    requires { Whole m image.now }
    ensures { let d = disk m image.now in TellsFound name_taken success (search d (bears_beside d (name_byte name extension) beside)) result × Below result }
{
    let mut at = slot_start(m, 0);
    for s in 0..64 {
        let f = entry_at(m, image, s, at, 0);
        if standing_flag(f) {
            if same_name(m, image, s, at, name, extension) & (s != beside) {
                return Some(s);
            }
        } else if f == 0 {
            return None;
        }
        at = slot_after(m, s + 1, at);
    }
    None
}

// The same, with the numbers of single density as constants, in which slots follow each other without a gap.
pub fn find_beside(m: Medium, image: &[u8], name: u64, extension: u64, beside: u16) -> Option<u16>
    requires { Whole m image.now }
    ensures { let d = disk m image.now in TellsFound name_taken success (search d (bears_beside d (name_byte name extension) beside)) result × Below result }
{
    let header = m.header;
    if m.density.size == Density::SINGLE_SIZE {
        let density = Density::single();
        return find_slot(Medium { header, density }, image, name, extension, beside);
    }
    find_slot(m, image, name, extension, beside)
}

// The first standing slot with the name. No slot is 64, and an Option would be a second thing for each turn of the search to compare.
pub fn find(m: Medium, image: &[u8], name: u64, extension: u64) -> Option<u16>
    requires { Whole m image.now }
    ensures { TellsFound success not_found (find (disk m image.now) (name_byte name extension)) result × Below result }
{
    find_beside(m, image, name, extension, 64)
}

// Another standing slot has the name.
pub fn another(m: Medium, image: &[u8], name: u64, extension: u64, slot: u16) -> bool
    requires { Whole m image.now }
    ensures { result ≡ another (disk m image.now) (name_byte name extension) slot }
{
    find_beside(m, image, name, extension, slot).is_some()
}

// Another standing slot has this slot's name.
pub fn has_double(m: Medium, image: &[u8], slot: u16) -> bool
    requires { Whole m image.now × (slot < 64) }
    ensures { result ≡ another (disk m image.now) (name (disk m image.now) slot) slot }
{
    another(
        m,
        image,
        slot_name(m, image, slot),
        slot_extension(m, image, slot),
        slot,
    )
}

// The eleven bytes of a name written.
pub fn write_name(m: Medium, image: &mut [u8], slot: u16, name: u64, extension: u64)
    requires { Whole m image.old × (slot < 64) }
    ensures { disk m image.new ≡ write_name (disk m image.old) slot (name_byte name extension) }
{
    for j in 0..11 {
        write_entry(m, image, slot, 5 + j, name_byte(name, extension, j));
    }
}
