// The buffer filled from a place on, a sector's run of bytes at a time.
ghost use Rattle.std.specs.Prelude.{List, ◌≢◌, ◌≡◌, ℕ, ◌+◌, ◌≤◌, ◌<◌, length};
ghost use Rattle.layout.specs.Image.{Whole, geometry_of, disk};
ghost use Rattle.layout.specs.declared.State.TheVariants.{Reading};
ghost use Rattle.rules.specs.Get.{place, get_from, readable, or_end_reached};
ghost use Rattle.gets.specs.Entered.{Entered, ByteLeft, Gets, at_hand, told_end};

use super::seek::{at_end, seek_next, step_in};
use super::whole::{Filled, get_whole};
use files::chain::fits;
use image::link::in_use;
use layout::density::Medium;
use layout::status::{self, Status};
use rules::{Got, Place, Seek};
use runs::run::get_run;

// What reading bytes leaves.
pub fn got(status: Status, count: usize, place: Place) -> Got
    ensures { result ≡ record { status = status; count = count; place = place } }
{
    Got {
        status,
        count,
        place,
    }
}

// The place behind `n` more bytes of the same sector.
pub fn past(p: Place, n: usize) -> Place
    requires { p.offset + n < 65536 }
    ensures { result ≡ place p.sector (p.offset + n) p.left }
{
    Place {
        offset: p.offset + n as u16,
        ..p
    }
}

// What a get of at least one byte answers that has read up to `p` with the status `read`: 3 where it succeeded and is at the end of a sector whose next sector is 0.
#[tactic(auto, using(rules::proofs::Reached::or_refused, rules::proofs::Reached::or_before, rules::proofs::Reached::or_end))]
fn or_end_reached(m: Medium, image: &[u8], read: Status, p: Place) -> Status
    requires { Whole m image.now × (p.sector ≤ 720) × (0 < p.sector → 4 ≤ p.sector) }
    ensures { (s : ℕ) (b : List ℕ) → length b ≢ 0 → result ≡ or_end_reached (geometry_of m) (disk m image.now) b (Reading s p.sector p.offset p.left) read }
{
    if read == status::SUCCESS && at_end(m, image, p) {
        return status::END_REACHED;
    }
    read
}

// The same of bytes that were read.
pub fn told(m: Medium, image: &[u8], r: Got) -> Got
    requires { Whole m image.now × (r.place.sector ≤ 720) × (0 < r.place.sector → 4 ≤ r.place.sector) }
    ensures { (s : ℕ) (b : List ℕ) → length b ≢ 0 → result ≡ told_end (geometry_of m) (disk m image.now) s b r }
{
    Got {
        status: or_end_reached(m, image, r.status, r.place),
        ..r
    }
}

// A place that was reached, and the bytes of the buffer that are filled there.
#[derive(Clone, Copy)]
struct Reached {
    place: Place,
    count: usize,
}

// What is wanted of the sector where a byte is left; and behind the end of a full one, full sectors at once.
fn get_here(m: Medium, image: &[u8], slot: u16, r: Reached, buffer: &mut [u8]) -> Reached
    requires { Whole m image.now × (slot < 64) × (r.count < length buffer.old) × ByteLeft (geometry_of m) (disk m image.now) r.place }
    ensures { (r.count < result.count) × Gets (geometry_of m) (disk m image.now) slot (length buffer.old) r.count r.place buffer.old result.count result.place buffer.new }
{
    let p = r.place;
    let used = in_use(m, image, p.sector) as u16;
    let run = (buffer.len() - r.count).min((used - p.offset) as usize);
    get_run(m, image, p.sector, p.offset as usize, run, buffer, r.count);
    let end = past(p, run);
    let count = r.count + run;
    if end.offset as usize != m.density.room {
        return Reached { place: end, count };
    }
    let full = Filled {
        sector: end.sector,
        left: end.left,
        count,
    };
    let w = get_whole(m, image, slot, full, buffer);
    Reached {
        place: Place {
            sector: w.sector,
            left: w.left,
            ..end
        },
        count: w.count,
    }
}

// The buffer filled from a place on. A turn comes on by as many bytes as it reads, which no `for` does.
pub fn get_from(m: Medium, image: &[u8], slot: u16, start: Place, buffer: &mut [u8]) -> Got
    requires { Whole m image.now × (slot < 64) × Entered (geometry_of m) (disk m image.now) start.sector }
    ensures { (result ≡ (get_from (geometry_of m) (disk m image.now) slot (length buffer.old) 0 start buffer.old).got)
        × (buffer.new ≡ (get_from (geometry_of m) (disk m image.now) slot (length buffer.old) 0 start buffer.old).buffer) }
{
    let mut r = Reached {
        place: start,
        count: 0,
    };
    while r.count < buffer.len() {
        match seek_next(m, image, slot, r.place) {
            Seek::Ready(q) => r = get_here(m, image, slot, Reached { place: q, ..r }, buffer),
            Seek::Ended(q) => return got(status::END_OF_FILE, r.count, q),
            Seek::Broken(q) => return got(status::BAD_CHAIN, r.count, q),
        }
    }
    got(status::SUCCESS, r.count, r.place)
}

// The sector, which was entered, holds `n` bytes from the offset on.
#[tactic(auto, unfolding(crate::specs::Entered::at_hand))]
fn at_hand(m: Medium, image: &[u8], p: Place, n: usize) -> bool
    requires { Whole m image.now × (n < 9223372036854775808) × Entered (geometry_of m) (disk m image.now) p.sector }
    ensures { result ≡ at_hand (geometry_of m) (disk m image.now) p.sector p.offset n }
{
    p.sector != 0 && p.offset as usize + n <= in_use(m, image, p.sector) as usize
}

// The buffer filled from a place on, and 3 at the file's end. Few bytes mostly lie in the sector that was entered, or in the next: then there is no loop to prepare for, and whether the sector's
// end is reached is asked before they are copied, while its number of bytes is known.
pub fn get_some(m: Medium, image: &[u8], slot: u16, start: Place, buffer: &mut [u8]) -> Got
    requires { Whole m image.now × (slot < 64) × (0 < length buffer.old) × Entered (geometry_of m) (disk m image.now) start.sector }
    ensures { (result ≡ told_end (geometry_of m) (disk m image.now) slot buffer.old (get_from (geometry_of m) (disk m image.now) slot (length buffer.old) 0 start buffer.old).got)
        × (buffer.new ≡ (get_from (geometry_of m) (disk m image.now) slot (length buffer.old) 0 start buffer.old).buffer) }
{
    let n = buffer.len();
    let near = step_in(m, image, slot, start);
    if at_hand(m, image, near, n) {
        let end = past(near, n);
        let status = or_end_reached(m, image, status::SUCCESS, end);
        get_run(m, image, near.sector, near.offset as usize, n, buffer, 0);
        return got(status, n, end);
    }
    told(m, image, get_from(m, image, slot, near, buffer))
}

// The slot is at most 63, and an entered sector still fits, with the offset not above its bytes in use.
#[tactic(auto, unfolding(rules::specs::Get::readable), using(crate::proofs::Seeking::fits_entered))]
pub fn readable(m: Medium, image: &[u8], slot: u16, p: Place) -> bool
    requires { Whole m image.now }
    ensures { result ≡ readable (geometry_of m) (disk m image.now) slot p.sector p.offset }
{
    slot < 64
        && (p.sector == 0
            || fits(m, image, slot, p.sector) && p.offset <= in_use(m, image, p.sector) as u16)
}
