// A line from a place on, the part of it in one sector at a time.
ghost use Rattle.std.specs.Prelude.{◌≡◌, ◌+◌, ◌≤◌, ◌<◌, eqb, length};
ghost use Rattle.std.proofs.lemmas.List.Edits.{sets};
ghost use Rattle.layout.specs.Basics.{if, values_from};
ghost use Rattle.layout.specs.Image.{Whole, geometry_of, disk};
ghost use Rattle.layout.specs.Status.{bad_chain, truncated};
ghost use Rattle.rules.specs.declared.Form.TheVariants.{Record};
ghost use Rattle.rules.specs.Get.{read_from, fill};
ghost use Rattle.gets.specs.Entered.{Entered, ByteLeft};
ghost use Rattle.gets.specs.Lines.{InLine};

use super::get::{got, past};
use super::seek::seek_next;
use image::link::in_use;
use layout::density::Medium;
use layout::status;
use rules::{Got, Place, Seek};
use runs::find::end_in;
use runs::run::get_run;

// The part of a line that lies in one sector: how many bytes, and whether the last of them is its $9B. No Option: there are bytes in both cases.
#[derive(Clone, Copy)]
struct Part {
    length: usize,
    ended: bool,
}

// The part of the line in the sector where a byte is left, of at most `n` bytes.
fn line_in(m: Medium, image: &[u8], p: Place, n: usize) -> Part
    requires { Whole m image.now × (0 < n) × ByteLeft (geometry_of m) (disk m image.now) p }
    ensures { (result.length ≤ n) × InLine (geometry_of m) (disk m image.now) p result.length result.ended }
{
    let from = p.offset as usize;
    let used = in_use(m, image, p.sector) as usize;
    let run = n.min(used - from);
    let end = end_in(m, image, p.sector, from, run);
    if end < from + run {
        return Part {
            length: end - from + 1,
            ended: true,
        };
    }
    Part {
        length: run,
        ended: false,
    }
}

// Bytes of a sector, `n` of them from a place on, stored in the buffer from `at` on; into an empty one none.
#[tactic(auto, using(crate::proofs::Lining::sets_none))]
fn keep_run(m: Medium, image: &[u8], p: Place, n: usize, buffer: &mut [u8], at: usize)
    requires { Whole m image.now × (4 ≤ p.sector) × (p.sector ≤ 720) × (p.offset + n ≤ (geometry_of m).size p.sector) × (0 < length buffer.old → at + n ≤ length buffer.old) }
    ensures { buffer.new ≡ sets buffer.old at (values_from (disk m image.now p.sector) n p.offset) }
{
    if !buffer.is_empty() {
        get_run(m, image, p.sector, p.offset as usize, n, buffer, at);
    }
}

// A line from a place on, through its $9B or `most` bytes of it. An empty buffer keeps none of them: so the rest of a line is dropped by the same loop. It is made once for each of the two, so that
// what it calls becomes part of it. A turn comes on by as many bytes as it reads, which no `for` does.
#[inline(always)]
fn line_from(
    m: Medium,
    image: &[u8],
    slot: u16,
    start: Place,
    most: usize,
    buffer: &mut [u8],
) -> Got
    requires { Whole m image.now × (slot < 64) × (0 < length buffer.old → most ≤ length buffer.old) × Entered (geometry_of m) (disk m image.now) start.sector }
    ensures { (result ≡ (read_from (geometry_of m) Record (disk m image.now) slot most 0 start buffer.old).got)
        × (buffer.new ≡ (read_from (geometry_of m) Record (disk m image.now) slot most 0 start buffer.old).buffer)
        × (result.status ≡ truncated → Entered (geometry_of m) (disk m image.now) result.place.sector) }
{
    let mut p = start;
    let mut i: usize = 0;
    while i < most {
        match seek_next(m, image, slot, p) {
            Seek::Ready(q) => {
                let part = line_in(m, image, q, most - i);
                keep_run(m, image, q, part.length, buffer, i);
                i += part.length;
                p = past(q, part.length);
                if part.ended {
                    return got(status::SUCCESS, i, p);
                }
            }
            Seek::Ended(q) => return got(status::END_OF_FILE, i, q),
            Seek::Broken(q) => return got(status::BAD_CHAIN, i, q),
        }
    }
    got(status::TRUNCATED, i, p)
}

// The answer where the line filled the buffer, with what reading on through its rest told. The file's end is no other answer than the line's; a sector that cannot be entered is.
fn dropped(count: usize, rest: Got) -> Got
    ensures { result ≡ record { status = if (eqb rest.status bad_chain) bad_chain truncated; count = count; place = rest.place } }
{
    if rest.status == status::BAD_CHAIN {
        return got(status::BAD_CHAIN, count, rest.place);
    }
    got(status::TRUNCATED, count, rest.place)
}

// A line into the buffer; where that is full before the $9B, the rest is read into none, and so dropped.
#[tactic(auto, using(crate::proofs::Lining::fill_as, crate::proofs::Lining::fill_drops))]
pub fn fill_line(m: Medium, image: &[u8], slot: u16, start: Place, buffer: &mut [u8]) -> Got
    requires { Whole m image.now × (slot < 64) × (0 < length buffer.old) × Entered (geometry_of m) (disk m image.now) start.sector }
    ensures { (result ≡ (fill (geometry_of m) Record (disk m image.now) slot start buffer.old).got)
        × (buffer.new ≡ (fill (geometry_of m) Record (disk m image.now) slot start buffer.old).buffer) }
{
    let n = buffer.len();
    let line = line_from(m, image, slot, start, n, buffer);
    if line.status != status::TRUNCATED {
        return line;
    }
    let most = (line.place.left as usize + 1) * m.density.room;
    let rest = line_from(m, image, slot, line.place, most, &mut []);
    dropped(line.count, rest)
}
