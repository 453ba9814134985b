// Showing: the bytes in use of one sector, as that part of the lent image.
ghost use Rattle.std.specs.Prelude.{◌≡◌, ◌+◌};
ghost use Rattle.layout.specs.Image.{Whole, geometry_of};
ghost use Rattle.rules.specs.Showing.{enters, shows, shown_start, shown_length, shown_part};

use files::chain::fits;
use image::bytes::start;
use image::link::in_use;
use layout::density::Medium;
use media::served_as;

// Yes or no: a get, with sectors left, could enter the sector for the named slot.
pub fn enters(m: Medium, image: &[u8], slot: u16, sector: u16) -> bool
    requires { Whole m image.now }
    ensures { result ≡ enters (geometry_of m) image.now slot sector }
{
    slot < 64 && fits(m, image, slot, sector)
}

// The same of any image.
pub fn shows(image: &[u8], slot: u16, sector: u16) -> bool
    ensures { result ≡ shows image.now slot sector }
{
    let Ok(m) = served_as(image) else {
        return false;
    };
    enters(m, image, slot, sector)
}

// The part that is shown: where it starts, and how many bytes it has. It is empty and at the image's start where the answer is no, as `shown_start` and `shown_length` of the rules have it.
#[derive(Clone, Copy)]
struct Part {
    start: usize,
    len: usize,
}

fn shown_part(image: &[u8], slot: u16, sector: u16) -> Part
    ensures { (result.start ≡ shown_start image.now slot sector) × (result.len ≡ shown_length image.now slot sector) }
{
    let Ok(m) = served_as(image) else {
        return Part { start: 0, len: 0 };
    };
    if !enters(m, image, slot, sector) {
        return Part { start: 0, len: 0 };
    }
    Part {
        start: start(m, sector),
        len: in_use(m, image, sector) as usize,
    }
}

// Where it starts.
pub fn shown_start(image: &[u8], slot: u16, sector: u16) -> usize
    ensures { result ≡ shown_start image.now slot sector }
{
    let p = shown_part(image, slot, sector);
    p.start
}

// Its length.
pub fn shown_length(image: &[u8], slot: u16, sector: u16) -> usize
    ensures { result ≡ shown_length image.now slot sector }
{
    let p = shown_part(image, slot, sector);
    p.len
}

// The part itself, an empty one at the image's start where the answer is no. No copy: it lies in the same memory as the image (`ptr.0`), `shown_start` bytes behind the image's own place there (`ptr.1`).
pub fn shown(image: &[u8], slot: u16, sector: u16) -> &[u8]
    ensures { let l = image.now in
        (result.now ≡ shown_part l slot sector) × (result.ref_ptr.0 ≡ image.entry.ref_ptr.0) × (result.ref_ptr.1 ≡ image.entry.ref_ptr.1 + shown_start l slot sector) }
{
    if !shows(image, slot, sector) {
        return &image[0..0];
    }
    let p = shown_part(image, slot, sector);
    let start = p.start;
    let end = start + p.len;
    &image[start..end]
}
