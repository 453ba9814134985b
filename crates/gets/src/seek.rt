// The search for a channel's next byte.
ghost use Rattle.std.specs.Prelude.{◌≡◌, ℕ, ◌≤◌, ◌<◌, MatchResult};
ghost use Rattle.layout.specs.Image.{Whole, geometry_of, disk};
ghost use Rattle.layout.specs.declared.State.TheVariants.{Reading};
ghost use Rattle.rules.specs.Get.{TellsSeek, next_to_enter, has_byte, ends, seek, at_end};
ghost use Rattle.gets.specs.Entered.{Entered, Sought};

use files::chain::fits;
use image::link::{in_use, next};
use image::slot::first;
use layout::density::Medium;
use rules::{Place, Seek};

// A byte of the entered sector is left.
#[tactic(auto, unfolding(rules::specs::Get::has_byte))]
fn has_byte(m: Medium, image: &[u8], p: Place) -> bool
    requires { Whole m image.now × (p.sector ≤ 720) × (0 < p.sector → 4 ≤ p.sector) }
    ensures { result ≡ has_byte (geometry_of m) (disk m image.now) p.sector p.offset }
{
    p.sector != 0 && p.offset < in_use(m, image, p.sector) as u16
}

// Next sector 0 ends the file.
#[tactic(auto, unfolding(rules::specs::Get::ends))]
fn ends(m: Medium, image: &[u8], sector: u16) -> bool
    requires { Whole m image.now × (sector ≤ 720) × (0 < sector → 4 ≤ sector) }
    ensures { result ≡ ends (geometry_of m) (disk m image.now) sector }
{
    sector != 0 && next(m, image, sector) == 0
}

// At the end of a sector whose next sector is 0.
#[tactic(auto, using(rules::proofs::Reached::at_none, rules::proofs::Reached::at_inside, rules::proofs::Reached::at_used))]
pub fn at_end(m: Medium, image: &[u8], p: Place) -> bool
    requires { Whole m image.now × (p.sector ≤ 720) × (0 < p.sector → 4 ≤ p.sector) }
    ensures { (s : ℕ) → result ≡ at_end (geometry_of m) (disk m image.now) (Reading s p.sector p.offset p.left) }
{
    p.sector != 0 && p.offset == in_use(m, image, p.sector) as u16 && ends(m, image, p.sector)
}

// The slot's first sector, or after that the link of the last one entered.
#[tactic(auto, unfolding(rules::specs::Get::next_to_enter))]
fn next_to_enter(m: Medium, image: &[u8], slot: u16, sector: u16) -> u16
    requires { Whole m image.now × (slot < 64) × (sector ≤ 720) × (0 < sector → 4 ≤ sector) }
    ensures { result ≡ next_to_enter (geometry_of m) (disk m image.now) slot sector }
{
    if sector == 0 {
        return first(m, image, slot);
    }
    next(m, image, sector)
}

// One step of the search: the place in the next sector, which is entered; or what the search ends with where it is. With the two tests outside and an Option as its answer a get of one sector took
// 5 percent more. That the sector was entered stands in each contract: a struct that held the image beside the place would have to say of each place that it answers that the image is the same.
#[inline(always)]
fn step(m: Medium, image: &[u8], slot: u16, p: Place) -> Result<Place, Seek>
    requires { Whole m image.now × (slot < 64) × Entered (geometry_of m) (disk m image.now) p.sector }
    ensures { let d = disk m image.now in let x = seek (geometry_of m) d slot p.sector p.offset p.left in
        MatchResult result (λ q. Entered (geometry_of m) d q.sector × (q.left < p.left) × (x ≡ seek (geometry_of m) d slot q.sector q.offset q.left)) (λ s. TellsSeek x s × Sought (geometry_of m) d s) }
{
    if has_byte(m, image, p) {
        return Err(Seek::Ready(p));
    }
    if ends(m, image, p.sector) {
        return Err(Seek::Ended(p));
    }
    if p.left == 0 {
        return Err(Seek::Broken(p));
    }
    let n = next_to_enter(m, image, slot, p.sector);
    if !fits(m, image, slot, n) {
        return Err(Seek::Broken(p));
    }
    Ok(Place {
        sector: n,
        offset: 0,
        left: p.left - 1,
    })
}

// A place from which the search goes on as it does from `p`: where no byte of the entered sector is left, the next is entered.
pub fn step_in(m: Medium, image: &[u8], slot: u16, p: Place) -> Place
    requires { Whole m image.now × (slot < 64) × Entered (geometry_of m) (disk m image.now) p.sector }
    ensures { Entered (geometry_of m) (disk m image.now) result.sector
        × (seek (geometry_of m) (disk m image.now) slot p.sector p.offset p.left ≡ seek (geometry_of m) (disk m image.now) slot result.sector result.offset result.left) }
{
    step(m, image, slot, p).unwrap_or(p)
}

// Sectors are entered until a byte is left, the file ends or a sector cannot be entered. It is made once for get and once for get record: were there one search for both, each get would be slower,
// by a tenth to a third.
#[inline(always)]
pub fn seek_next(m: Medium, image: &[u8], slot: u16, start: Place) -> Seek
    requires { Whole m image.now × (slot < 64) × Entered (geometry_of m) (disk m image.now) start.sector }
    ensures { let d = disk m image.now in TellsSeek (seek (geometry_of m) d slot start.sector start.offset start.left) result × Sought (geometry_of m) d result }
{
    let mut p = start;
    loop {
        match step(m, image, slot, p) {
            Ok(q) => p = q,
            Err(s) => return s,
        }
    }
}
