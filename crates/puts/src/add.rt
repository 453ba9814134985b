// Bytes added at a file's end, a sector's run at a time; and the one that ends a line.
ghost use Rattle.std.specs.Prelude.{true, [], ◌∷◌, ◌≡◌, ◌+◌, ◌-◌, ◌*◌, ◌≤◌, ◌<◌, length, take, drop, MatchOption};
ghost use Rattle.layout.specs.Image.{Whole, geometry_of, disk};
ghost use Rattle.layout.specs.Volume.{data_sector, good};
ghost use Rattle.layout.specs.File.{end_of_line, in_use};
ghost use Rattle.rules.specs.Put.{room_for, add_byte, put_from};
ghost use Rattle.puts.specs.Run.{add_run, chained, settled, settled_from};
ghost use Rattle.puts.specs.Come.{Puts};
ghost use Rattle.puts.specs.Searched.{Searched, HasRoom};

use files::gives::give;
use image::bytes::write_file_byte;
use image::link::{in_use, write_in_use, write_link};
use image::slot::{count, write_count};
use layout::END_OF_LINE;
use layout::density::{Density, Medium};
use layout::status::{self, Status};
use rules::Added;
use runs::run::write_run;
use volume::lowest::{lowest_free, lowest_from};
use volume::map::{free_count, is_free, less, mark_used, write_free_count};

// How far bytes have been added: the last sector, how many of them, and the sector from which the next search goes on.
#[derive(Clone, Copy)]
struct Reached {
    sector: u16,
    count: usize,
    from: u16,
}

// The sector with room for the next byte: the last one while it has room, then the lowest free one, given out; or none. Made once for each caller (docs/DECISIONS.md).
#[inline(always)]
#[tactic(auto, using(layout::proofs::Data::data_facts))]
fn room(m: Medium, image: &mut [u8], slot: u16, w: Reached) -> Option<Reached>
    requires { Whole m image.old × (slot < 64) × (data_sector w.sector ≡ true) × Searched (disk m image.old 360) w.from }
    ensures { let o = room_for (geometry_of m) (disk m image.old) slot w.sector in
        (disk m image.new ≡ o.disk) × MatchOption result (o.sector ≡ 0)
        (λ r. (r.sector ≡ o.sector) × (r.count ≡ w.count) × HasRoom (geometry_of m) (disk m image.new) r.sector × Searched (disk m image.new 360) r.from) }
{
    if (in_use(m, image, w.sector) as usize) < m.density.room {
        return Some(w);
    }
    let k = lowest_from(m, image, w.from as usize / 8);
    if k == 0 {
        return None;
    }
    give(m, image, slot, w.sector, k);
    Some(Reached {
        sector: k,
        from: k + 1,
        ..w
    })
}

// Bytes more in a sector that has room for them.
#[tactic(auto, unfolding(crate::specs::Run::add_run))]
fn add_run(m: Medium, image: &mut [u8], sector: u16, bytes: &[u8])
    requires { Whole m image.old × (4 ≤ sector) × (sector ≤ 720) × (in_use (geometry_of m) (disk m image.old sector) + length bytes.now ≤ m.density.room) }
    ensures { disk m image.new ≡ add_run (geometry_of m) (disk m image.old) sector bytes.now }
{
    let n = in_use(m, image, sector) as usize;
    write_run(m, image, sector, n, bytes);
    write_in_use(m, image, sector, (n + bytes.len()) as u8);
}

// A free sector chained behind a full one and filled: its map bit, the link to it, its bytes in use and its data. Its own link and both counts are left for later.
#[tactic(auto, unfolding(crate::specs::Run::chained))]
fn chain(m: Medium, image: &mut [u8], slot: u16, prev: u16, sector: u16, bytes: &[u8])
    requires { Whole m image.old × (slot < 64) × (4 ≤ prev) × (prev < 720) × (4 ≤ sector) × (sector < 720) × (length bytes.now ≡ m.density.room) }
    ensures { disk m image.new ≡ chained (geometry_of m) (disk m image.old) slot prev sector bytes.now }
{
    let room = m.density.room;
    mark_used(m, image, sector);
    write_link(m, image, prev, slot, sector);
    write_in_use(m, image, sector, room as u8);
    write_run(m, image, sector, 0, bytes);
}

// The sector after `prev` on the disk, chained and filled. The sectors behind the one that was reached up to `prev` hold the bytes of the buffer from there on, and it gets the next ones. Where those
// begin is worked out from the sector alone, so that a loop over it counts only one number.
fn chain_next(m: Medium, image: &mut [u8], slot: u16, w: Reached, prev: u16, buffer: &[u8])
    requires { Whole m image.old × (slot < 64) × (4 ≤ w.sector) × (w.sector ≤ prev) × (prev < 719) × (w.count + (prev - w.sector + 1) * m.density.room ≤ length buffer.now) }
    ensures { disk m image.new ≡ chained (geometry_of m) (disk m image.old) slot prev (prev + 1) (take m.density.room (drop (w.count + (prev - w.sector) * m.density.room) buffer.now)) }
{
    let room = m.density.room;
    let byte = w.count + (prev - w.sector) as usize * room;
    let end = byte + room;
    chain(m, image, slot, prev, prev + 1, &buffer[byte..end]);
}

// The same, with the numbers of each density as constants. A loop over it is then made once for each of them, with constant steps. A function that is lent the call as a closure cannot stand for the
// three: its caller is told nothing of an image that the closure captures and changes.
fn chain_after(m: Medium, image: &mut [u8], slot: u16, w: Reached, prev: u16, buffer: &[u8])
    requires { Whole m image.old × (slot < 64) × (4 ≤ w.sector) × (w.sector ≤ prev) × (prev < 719) × (w.count + (prev - w.sector + 1) * m.density.room ≤ length buffer.now) }
    ensures { disk m image.new ≡ chained (geometry_of m) (disk m image.old) slot prev (prev + 1) (take m.density.room (drop (w.count + (prev - w.sector) * m.density.room) buffer.now)) }
{
    match m.density.size {
        Density::SINGLE_SIZE => {
            let density = Density::single();
            chain_next(Medium { density, ..m }, image, slot, w, prev, buffer);
        }
        Density::DOUBLE_SIZE => {
            let density = Density::double();
            chain_next(Medium { density, ..m }, image, slot, w, prev, buffer);
        }
        _ => chain_next(m, image, slot, w, prev, buffer),
    }
}

// Full sectors chained behind a full one that was given out last, up to sector `end`, as long as the sector after it on the disk is free: then that is the lowest, and no search waits for the map
// byte that the last one changed. The last of them, or the full one.
fn chain_free(m: Medium, image: &mut [u8], slot: u16, w: Reached, end: u16, buffer: &[u8]) -> u16
    requires { Whole m image.old × (slot < 64) × (data_sector w.sector ≡ true) × (w.sector ≤ end) × (end ≤ 719) × (w.count + (end - w.sector) * m.density.room ≤ length buffer.now) × (m.density.room ≤ in_use (geometry_of m) (disk m image.old w.sector)) × Searched (disk m image.old 360) (w.sector + 1) }
    ensures { (w.sector ≤ result) × (data_sector result ≡ true) × Searched (settled_from (geometry_of m) (disk m image.new) slot w.sector result 360) (result + 1)
        × Puts (geometry_of m) slot buffer.now (disk m image.old) w.sector w.count (settled_from (geometry_of m) (disk m image.new) slot w.sector result) result (w.count + (result - w.sector) * m.density.room) }
{
    for p in w.sector..end {
        if !is_free(m, image, p + 1) {
            return p;
        }
        chain_after(m, image, slot, w, p, buffer);
    }
    end
}

// The sector that is `n` behind sector `last` on the disk, or the last one on it that a file may have.
fn last_within(last: u16, n: usize) -> u16
    requires { last ≤ 719 }
    ensures { (last ≤ result) × (result ≤ 719) × (result - last ≤ n) }
{
    last + n.min((719 - last) as usize) as u16
}

// What was left for later when `n` sectors were chained, the last of them `last`: its own link, the slot's count and the free count.
#[tactic(auto, unfolding(crate::specs::Run::settled, crate::specs::Run::counted))]
fn settle(m: Medium, image: &mut [u8], slot: u16, last: u16, n: u16)
    requires { Whole m image.old × (slot < 64) × (4 ≤ last) × (last < 720) }
    ensures { disk m image.new ≡ settled (geometry_of m) (disk m image.old) slot last n }
{
    write_link(m, image, last, slot, 0);
    let sectors = count(m, image, slot);
    write_count(m, image, slot, sectors as u32 + n as u32);
    let had = free_count(m, image);
    write_free_count(m, image, less(had, n));
}

// Full sectors added behind the one that was given out last, where that is full too.
#[tactic(auto, using(layout::proofs::Data::data_facts))]
fn put_whole(m: Medium, image: &mut [u8], slot: u16, w: Reached, buffer: &[u8]) -> Reached
    requires { Whole m image.old × (slot < 64) × (data_sector w.sector ≡ true) × (w.count ≤ length buffer.now) × Searched (disk m image.old 360) w.from }
    ensures { (data_sector result.sector ≡ true) × Searched (disk m image.new 360) result.from
        × Puts (geometry_of m) slot buffer.now (disk m image.old) w.sector w.count (disk m image.new) result.sector result.count }
{
    let room = m.density.room;
    let last = w.sector;
    if w.from != last + 1 {
        return w;
    }
    if (in_use(m, image, last) as usize) < room {
        return w;
    }
    let rest = buffer.len() - w.count;
    if rest < room {
        return w;
    }
    let end = last_within(last, rest / room);
    let p = chain_free(m, image, slot, w, end, buffer);
    if p == last {
        return w;
    }
    let n = p - last;
    settle(m, image, slot, p, n);
    Reached {
        sector: p,
        count: w.count + n as usize * room,
        from: p + 1,
    }
}

// What adding bytes leaves.
pub fn added(status: Status, count: usize, last: u16) -> Added
    ensures { result ≡ record { status = status; count = count; last = last } }
{
    Added {
        status,
        count,
        last,
    }
}

// The bytes of the buffer added, as many as fit. A turn comes on by as many bytes as it adds, which no `for` does.
fn put_from(m: Medium, image: &mut [u8], slot: u16, last: u16, buffer: &[u8]) -> Added
    requires { Whole m image.old × (slot < 64) × (data_sector last ≡ true) × (good (disk m image.old 360) ≡ true) }
    ensures { (result ≡ (put_from (geometry_of m) buffer.now (disk m image.old) slot last 0).added)
        × (disk m image.new ≡ (put_from (geometry_of m) buffer.now (disk m image.old) slot last 0).disk) }
{
    let mut w = Reached {
        sector: last,
        count: 0,
        from: 0,
    };
    while w.count < buffer.len() {
        let Some(r) = room(m, image, slot, w) else {
            return added(status::DISK_FULL, w.count, w.sector);
        };
        let n = in_use(m, image, r.sector) as usize;
        let end = w.count + (buffer.len() - w.count).min(m.density.room - n);
        add_run(m, image, r.sector, &buffer[w.count..end]);
        w = put_whole(m, image, slot, Reached { count: end, ..r }, buffer);
    }
    added(status::SUCCESS, w.count, w.sector)
}

// The same, where the last sector is full and one more has room for all bytes. No case of `room`, with which it shares two lines. Made once for each caller (docs/DECISIONS.md).
#[inline(always)]
fn put_new(m: Medium, image: &mut [u8], slot: u16, last: u16, buffer: &[u8]) -> Added
    requires { Whole m image.old × (slot < 64) × (data_sector last ≡ true) × (good (disk m image.old 360) ≡ true) × (m.density.room ≤ in_use (geometry_of m) (disk m image.old last)) × (0 < length buffer.now) × (length buffer.now ≤ m.density.room) }
    ensures { (result ≡ (put_from (geometry_of m) buffer.now (disk m image.old) slot last 0).added)
        × (disk m image.new ≡ (put_from (geometry_of m) buffer.now (disk m image.old) slot last 0).disk) }
{
    let k = lowest_free(m, image);
    if k == 0 {
        return added(status::DISK_FULL, 0, last);
    }
    give(m, image, slot, last, k);
    add_run(m, image, k, buffer);
    added(status::SUCCESS, buffer.len(), k)
}

// The same. Few bytes mostly find room in the last sector, or in one more behind it: then there is no loop to prepare for. It is made once for put and once for put record, so that neither has a
// call before its first byte.
#[inline(always)]
#[tactic(auto, using(layout::proofs::Data::data_facts))]
pub fn put_some(m: Medium, image: &mut [u8], slot: u16, last: u16, buffer: &[u8]) -> Added
    requires { Whole m image.old × (slot < 64) × (data_sector last ≡ true) × (good (disk m image.old 360) ≡ true) }
    ensures { (result ≡ (put_from (geometry_of m) buffer.now (disk m image.old) slot last 0).added)
        × (disk m image.new ≡ (put_from (geometry_of m) buffer.now (disk m image.old) slot last 0).disk) }
{
    let room = m.density.room;
    let had = in_use(m, image, last) as usize;
    let n = buffer.len();
    if had + n <= room {
        add_run(m, image, last, buffer);
        return added(status::SUCCESS, n, last);
    }
    if had == room && n <= room {
        return put_new(m, image, slot, last, buffer);
    }
    put_from(m, image, slot, last, buffer)
}

// $9B more in a sector that has room for it.
#[tactic(auto, unfolding(rules::specs::Put::add_byte))]
fn add_end(m: Medium, image: &mut [u8], sector: u16)
    requires { Whole m image.old × (4 ≤ sector) × (sector ≤ 720) × (in_use (geometry_of m) (disk m image.old sector) < m.density.room) }
    ensures { disk m image.new ≡ add_byte (geometry_of m) (disk m image.old) sector end_of_line }
{
    let n = in_use(m, image, sector) as usize;
    write_file_byte(m, image, sector, n, END_OF_LINE);
    write_in_use(m, image, sector, (n + 1) as u8);
}

// The $9B behind a line that was added whole. It is none of the caller's bytes, so they are counted as before.
pub fn put_end(m: Medium, image: &mut [u8], slot: u16, line: Added) -> Added
    requires { Whole m image.old × (slot < 64) × (data_sector line.last ≡ true) × (good (disk m image.old 360) ≡ true) }
    ensures { let o = put_from (geometry_of m) (end_of_line ∷ []) (disk m image.old) slot line.last line.count in
        (result ≡ record { status = o.added.status; count = line.count; last = o.added.last }) × (disk m image.new ≡ o.disk) }
{
    let w = Reached {
        sector: line.last,
        count: line.count,
        from: 0,
    };
    let Some(r) = room(m, image, slot, w) else {
        return added(status::DISK_FULL, line.count, line.last);
    };
    add_end(m, image, r.sector);
    added(status::SUCCESS, line.count, r.sector)
}
