// Whether a slot's chain is clean. A walk is safe on any chain: a sector is entered only if it fits, and at most 707 are.
#![tactic(auto, using(crate::proofs::Walks::test_steps), unfolding(layout::specs::File::fits, layout::specs::File::belongs, layout::specs::File::clean_as))]

ghost use Rattle.std.specs.Prelude.{◌≡◌, ◌+◌, ◌-◌, ◌≤◌, ◌<◌};
ghost use Rattle.layout.specs.Image.{Whole, geometry_of, disk};
ghost use Rattle.layout.specs.File.{fits, belongs, clean_from, clean_as, clean, clean_free};

use bits::data_sector;
use image::link::{in_use, next, owner};
use image::slot::{count, first};
use layout::density::Medium;
use volume::map::is_free;

// What a chain asks of its sector: a data sector that carries the slot number and holds no more bytes than a file sector's data.
pub fn fits(m: Medium, image: &[u8], slot: u16, sector: u16) -> bool
    requires { Whole m image.now }
    ensures { result ≡ fits (geometry_of m) (disk m image.now sector) slot sector }
{
    if !data_sector(sector) {
        return false;
    }
    (owner(m, image, sector) == slot) & (usize::from(in_use(m, image, sector)) <= m.density.room)
}

// And it is marked used, or free where `freed` says so: the rules' `belongs` and `clean_as` have that flag too, and it is compared, so no step is chosen by it.
fn belongs(m: Medium, image: &[u8], freed: bool, slot: u16, sector: u16) -> bool
    requires { Whole m image.now }
    ensures { result ≡ belongs (geometry_of m) freed (disk m image.now) slot sector }
{
    if !fits(m, image, slot, sector) {
        return false;
    }
    is_free(m, image, sector) == freed
}

// How many sectors from `start` on, at most `n`, pass that test and each lead to the sector after it on the disk.
// The sector is a plain count and its link is only compared with it, so that no sector waits for the link before it.
fn clean_run(m: Medium, image: &[u8], freed: bool, slot: u16, n: u16, start: u16) -> u16
    requires { Whole m image.now }
    ensures { (result ≤ n) × (start + result < 65536)
        × (clean_from (geometry_of m) freed (disk m image.now) slot n start ≡ clean_from (geometry_of m) freed (disk m image.now) slot (n - result) (start + result)) }
{
    for j in 0..n {
        let sector = start + j;
        if !belongs(m, image, freed, slot, sector) {
            return j;
        }
        if next(m, image, sector) != sector + 1 {
            return j;
        }
    }
    n
}

// `n` steps meet only such sectors, and lead to next sector 0. Where a link leads to the sector after it on the disk, as most do, `clean_run` walks on from there.
// A `while`, since a turn goes on by as many sectors as the run has.
fn clean_from(m: Medium, image: &[u8], freed: bool, slot: u16, n: u16, start: u16) -> bool
    requires { Whole m image.now }
    ensures { result ≡ clean_from (geometry_of m) freed (disk m image.now) slot n start }
{
    let mut k = start;
    let mut i: u16 = 0;
    while i < n {
        if !belongs(m, image, freed, slot, k) {
            return false;
        }
        let after = next(m, image, k);
        i += 1;
        if after == k + 1 {
            let run = clean_run(m, image, freed, slot, n - i, after);
            k = after + run;
            i += run;
        } else {
            k = after;
        }
    }
    k == 0
}

// The slot's count is 1 to 707, and its chain passes.
fn clean_as(m: Medium, image: &[u8], freed: bool, slot: u16) -> bool
    requires { Whole m image.now × (slot < 64) }
    ensures { result ≡ clean_as (geometry_of m) freed (disk m image.now) slot }
{
    match count(m, image, slot) {
        n @ 1..=707 => clean_from(m, image, freed, slot, n, first(m, image, slot)),
        _ => false,
    }
}

// A slot's chain is clean.
pub fn clean(m: Medium, image: &[u8], slot: u16) -> bool
    requires { Whole m image.now × (slot < 64) }
    ensures { result ≡ clean (geometry_of m) (disk m image.now) slot }
{
    clean_as(m, image, false, slot)
}

// Clean in every respect but that its sectors must be free.
pub fn clean_free(m: Medium, image: &[u8], slot: u16) -> bool
    requires { Whole m image.now × (slot < 64) }
    ensures { result ≡ clean_free (geometry_of m) (disk m image.now) slot }
{
    clean_as(m, image, true, slot)
}
