// Eight bytes, or three or four, as one number.
ghost use Rattle.std.specs.Prelude.{◌≡◌, ◌+◌, ◌*◌, ◌/◌, ◌%◌, ◌≤◌, ◌<◌, length, get_or};
ghost use Rattle.layout.specs.Image.{Whole, geometry_of, disk};
ghost use Rattle.layout.specs.Directory.{name};
ghost use Rattle.layout.specs.Names.{as_word};
ghost use Rattle.runs.specs.Words.{bytes_from, map_from, extension, last_four};

use image::bytes::start;
use image::slot::slot_start;
use layout::density::Medium;

// Eight bytes from i on, the first of them lowest.
#[tactic(auto, using(crate::proofs::Packed::packed_eight))]
fn word8(s: &[u8], i: usize) -> u64
    requires { i + 8 ≤ length s.now }
    ensures { result ≡ as_word (bytes_from s.now i) 8 }
{
    u64::from_le_bytes([
        s[i],
        s[i + 1],
        s[i + 2],
        s[i + 3],
        s[i + 4],
        s[i + 5],
        s[i + 6],
        s[i + 7],
    ])
}

// Three of them.
#[tactic(auto, using(crate::proofs::Packed::packed_three))]
fn word3(s: &[u8], i: usize) -> u64
    requires { i + 3 ≤ length s.now }
    ensures { result ≡ as_word (bytes_from s.now i) 3 }
{
    u64::from_le_bytes([s[i], s[i + 1], s[i + 2], 0, 0, 0, 0, 0])
}

// Four of them.
#[tactic(auto, using(crate::proofs::Packed::packed_four))]
fn word4(s: &[u8], i: usize) -> u64
    requires { i + 4 ≤ length s.now }
    ensures { result ≡ as_word (bytes_from s.now i) 4 }
{
    u64::from(u32::from_le_bytes([s[i], s[i + 1], s[i + 2], s[i + 3]]))
}

// The eight name bytes of the slot that starts at `at`.
pub fn slot_name_at(m: Medium, image: &[u8], slot: u16, at: usize) -> u64
    requires { Whole m image.now × (slot < 64) × (at ≡ (geometry_of m).start (361 + slot / 8) + slot % 8 * 16) }
    ensures { result ≡ as_word (name (disk m image.now) slot) 8 }
{
    word8(image, at + 5)
}

// The three bytes of its extension.
pub fn slot_extension_at(m: Medium, image: &[u8], slot: u16, at: usize) -> u64
    requires { Whole m image.now × (slot < 64) × (at ≡ (geometry_of m).start (361 + slot / 8) + slot % 8 * 16) }
    ensures { result ≡ as_word (extension (disk m image.now) slot) 3 }
{
    word3(image, at + 13)
}

// The last of them with its extension: four bytes are one load, where three are two.
pub fn slot_last_four_at(m: Medium, image: &[u8], slot: u16, at: usize) -> u64
    requires { Whole m image.now × (slot < 64) × (at ≡ (geometry_of m).start (361 + slot / 8) + slot % 8 * 16) }
    ensures { result ≡ as_word (last_four (disk m image.now) slot) 4 }
{
    word4(image, at + 12)
}

// The eight name bytes of a slot.
pub fn slot_name(m: Medium, image: &[u8], slot: u16) -> u64
    requires { Whole m image.now × (slot < 64) }
    ensures { result ≡ as_word (name (disk m image.now) slot) 8 }
{
    slot_name_at(m, image, slot, slot_start(m, slot))
}

// The three bytes of its extension.
pub fn slot_extension(m: Medium, image: &[u8], slot: u16) -> u64
    requires { Whole m image.now × (slot < 64) }
    ensures { result ≡ as_word (extension (disk m image.now) slot) 3 }
{
    slot_extension_at(m, image, slot, slot_start(m, slot))
}

// Eight map bytes, from byte i of the map on.
pub fn map_word(m: Medium, image: &[u8], i: usize) -> u64
    requires { Whole m image.now × (i ≤ 82) }
    ensures { result ≡ as_word (map_from (disk m image.now 360) i) 8 }
{
    word8(image, start(m, 360) + (10 + i))
}
