// Full sectors, entered one after another while the buffer has room for all their bytes.
ghost use Rattle.std.specs.Prelude.{true, ◌≡◌, ℕ, ◌-◌, ◌≤◌, ◌<◌, length};
ghost use Rattle.layout.specs.Image.{Whole, geometry_of, disk};
ghost use Rattle.layout.specs.Volume.{data_sector};
ghost use Rattle.gets.specs.Entered.{full, leads_on, Entered, Consecutive, DataBehind, Fills};

use files::chain::fits;
use image::bytes::start;
use image::link::{in_use, link_at, next, used_at};
use layout::density::{Density, Medium};
use runs::run::get_data;

// The end of a full sector, the sectors yet to enter from there, and the bytes of the buffer that are filled.
#[derive(Clone, Copy)]
pub struct Filled {
    pub sector: u16,
    pub left: u16,
    pub count: usize,
}

// A sector fits, and has no room left.
#[tactic(auto, unfolding(crate::specs::Entered::full), using(crate::proofs::Seeking::fits_entered))]
fn is_full(m: Medium, image: &[u8], slot: u16, sector: u16) -> bool
    requires { Whole m image.now }
    ensures { result ≡ full (geometry_of m) (disk m image.now) slot sector }
{
    fits(m, image, slot, sector) && in_use(m, image, sector) as usize == m.density.room
}

// The last data sector that is reached from a data sector by counting: before the table, or before sector 720.
fn last_counted(sector: u16) -> u16
    requires { data_sector sector ≡ true }
    ensures { (sector ≤ result) × (result < 720) × ((k : ℕ) → sector ≤ k → k ≤ result → data_sector k ≡ true) }
{
    if sector < 360 { 359 } else { 719 }
}

// How many sectors behind a data sector may be entered by counting, of those that are left to enter.
fn ahead(sector: u16, left: u16) -> u16
    requires { data_sector sector ≡ true }
    ensures { (result ≤ left) × DataBehind sector result }
{
    left.min(last_counted(sector) - sector)
}

// A full sector leads to the one after it on the disk; `at` is where it starts. Its slot number and its link are compared at once.
fn leads_on(m: Medium, image: &[u8], slot: u16, sector: u16, at: usize) -> bool
    requires { Whole m image.now × (slot < 64) × (data_sector sector ≡ true) × (at ≡ (geometry_of m).start sector) }
    ensures { result ≡ leads_on (geometry_of m) (disk m image.now) slot sector }
{
    let room = m.density.room;
    let link = link_at(m, image, sector, at);
    let used = used_at(m, image, sector, at) as usize;
    (link == slot * 1024 + (sector + 1)) & (used == room)
}

// The end of a sector that was reached by counting on from another, with what is left to enter and what is filled there.
fn counted_to(w: Filled, sector: u16, count: usize) -> Filled
    requires { (w.sector ≤ sector) × (sector - w.sector ≤ w.left) }
    ensures { result ≡ record { sector = sector; left = w.left - (sector - w.sector); count = count } }
{
    Filled {
        sector,
        left: w.left - (sector - w.sector),
        count,
    }
}

// Full sectors behind one that leads to the sector after it on the disk, at most `n` and as long as each does so too. Each is found by counting and its link only compared, so that no load
// waits for the one before, and where it starts is handed on.
fn get_counted(m: Medium, image: &[u8], slot: u16, w: Filled, n: u16, buffer: &mut [u8]) -> Filled
    requires { Whole m image.now × (slot < 64) × (4 ≤ w.sector) × (n ≤ w.left) × DataBehind w.sector n × (w.count ≤ length buffer.old) × Consecutive (geometry_of m) (disk m image.now) w.sector }
    ensures { Fills (geometry_of m) (disk m image.now) slot w buffer.old result buffer.new }
{
    let end = w.sector + n;
    let mut at = start(m, w.sector + 1);
    let mut i = w.count;
    for k in w.sector..end {
        if buffer.len() - i < m.density.room || !leads_on(m, image, slot, k + 1, at) {
            return counted_to(w, k, i);
        }
        get_data(m, image, k + 1, at, buffer, i);
        at += m.density.size;
        i += m.density.room;
    }
    counted_to(w, end, i)
}

// The same, with the numbers of each density as constants: the loop is short enough to be made once for each of them. A function that is lent the call as a closure cannot stand for the three: its
// caller is told nothing of a buffer that the closure captures and changes.
fn get_consecutive(
    m: Medium,
    image: &[u8],
    slot: u16,
    w: Filled,
    n: u16,
    buffer: &mut [u8],
) -> Filled
    requires { Whole m image.now × (slot < 64) × (4 ≤ w.sector) × (n ≤ w.left) × DataBehind w.sector n × (w.count ≤ length buffer.old) × Consecutive (geometry_of m) (disk m image.now) w.sector }
    ensures { Fills (geometry_of m) (disk m image.now) slot w buffer.old result buffer.new }
{
    match m.density.size {
        Density::SINGLE_SIZE => {
            let density = Density::single();
            get_counted(Medium { density, ..m }, image, slot, w, n, buffer)
        }
        Density::DOUBLE_SIZE => {
            let density = Density::double();
            get_counted(Medium { density, ..m }, image, slot, w, n, buffer)
        }
        _ => get_counted(m, image, slot, w, n, buffer),
    }
}

// Full sectors behind a full one that was entered, where they follow it on the disk.
fn get_behind(m: Medium, image: &[u8], slot: u16, w: Filled, buffer: &mut [u8]) -> Filled
    requires { Whole m image.now × (slot < 64) × (full (geometry_of m) (disk m image.now) slot w.sector ≡ true) × (w.count ≤ length buffer.old) }
    ensures { Fills (geometry_of m) (disk m image.now) slot w buffer.old result buffer.new }
{
    if next(m, image, w.sector) != w.sector + 1 {
        return w;
    }
    get_consecutive(m, image, slot, w, ahead(w.sector, w.left), buffer)
}

// Full sectors from the end of one on, wherever on the disk they are. A link tells the next, and how many follow it is not known before: so no `for` counts them.
pub fn get_whole(m: Medium, image: &[u8], slot: u16, w: Filled, buffer: &mut [u8]) -> Filled
    requires { Whole m image.now × (slot < 64) × (4 ≤ w.sector) × (w.count ≤ length buffer.old) × Entered (geometry_of m) (disk m image.now) w.sector }
    ensures { Fills (geometry_of m) (disk m image.now) slot w buffer.old result buffer.new }
{
    let room = m.density.room;
    let mut r = w;
    while 0 < r.left && room <= buffer.len() - r.count {
        let n = next(m, image, r.sector);
        if !is_full(m, image, slot, n) {
            return r;
        }
        get_data(m, image, n, start(m, n), buffer, r.count);
        let one = Filled {
            sector: n,
            left: r.left - 1,
            count: r.count + room,
        };
        r = get_behind(m, image, slot, one, buffer);
    }
    r
}
