// Get and get record on one channel: the checks are the same, and what is read differs.
ghost use Rattle.std.specs.Prelude.{◌≡◌, ◌<◌, length};
ghost use Rattle.layout.specs.Image.{Whole, geometry_of, disk};
ghost use Rattle.layout.specs.declared.State.TheVariants.{Reading};
ghost use Rattle.rules.specs.Get.{advanced, fill, get_as};
ghost use Rattle.gets.specs.Entered.{Entered, told_end};

use super::get::{get_some, got, readable, told};
use super::line::fill_line;
use layout::State;
use layout::density::Medium;
use layout::status::{self, Status};
use rules::answers::refused;
use rules::{Advanced, Form, Got, Place};

// The buffer filled from a place on; or through the line's $9B, and the rest of a line that does not fit dropped. 3 at the file's end.
#[tactic(auto, unfolding(rules::specs::Get::fill))]
fn fill(m: Medium, image: &[u8], form: Form, slot: u16, p: Place, buffer: &mut [u8]) -> Got
    requires { Whole m image.now × (slot < 64) × (0 < length buffer.old) × Entered (geometry_of m) (disk m image.now) p.sector }
    ensures { let o = fill (geometry_of m) form (disk m image.now) slot p buffer.old in
        (result ≡ told_end (geometry_of m) (disk m image.now) slot buffer.old o.got) × (buffer.new ≡ o.buffer) }
{
    match form {
        Form::Characters => get_some(m, image, slot, p, buffer),
        Form::Record => told(m, image, fill_line(m, image, slot, p, buffer)),
    }
}

// What reading bytes left as an answer, with the reading channel after it.
fn reading(slot: u16, r: Got) -> Advanced
    ensures { result ≡ advanced r.status r.count (Reading slot r.place.sector r.place.offset r.place.left) }
{
    Advanced {
        status: r.status,
        count: r.count,
        state: State::Reading {
            slot,
            sector: r.place.sector,
            offset: r.place.offset,
            left: r.place.left,
        },
    }
}

// A get of either form on a reading channel.
#[tactic(auto, unfolding(rules::specs::Get::gets), using(rules::proofs::Reached::gets_none, rules::proofs::Reached::gets_broken, rules::proofs::Reached::gets_some))]
fn get_reading(
    m: Medium,
    image: &[u8],
    form: Form,
    slot: u16,
    p: Place,
    buffer: &mut [u8],
) -> Advanced
    requires { Whole m image.now }
    ensures { let o = get_as (geometry_of m) form (disk m image.now) (Reading slot p.sector p.offset p.left) buffer.old in
        (result ≡ o.answer) × (buffer.new ≡ o.buffer) }
{
    if buffer.is_empty() {
        return reading(slot, got(status::SUCCESS, 0, p));
    }
    if !readable(m, image, slot, p) {
        return reading(slot, got(status::BAD_CHAIN, 0, p));
    }
    reading(slot, fill(m, image, form, slot, p, buffer))
}

// A get of either form on one channel.
#[tactic(auto, unfolding(rules::specs::Get::get_as, rules::specs::Get::read_on, rules::specs::Get::or_end_reached))]
pub fn get_as(m: Medium, image: &[u8], form: Form, st: State, buffer: &mut [u8]) -> Advanced
    requires { Whole m image.now }
    ensures { let o = get_as (geometry_of m) form (disk m image.now) st buffer.old in
        (result ≡ o.answer) × (buffer.new ≡ o.buffer) }
{
    match st {
        State::Closed => refused(status::CHANNEL_CLOSED, st),
        State::Reading {
            slot,
            sector,
            offset,
            left,
        } => {
            let p = Place {
                sector,
                offset,
                left,
            };
            get_reading(m, image, form, slot, p, buffer)
        }
        State::Writing { .. } => refused(status::WRITE_ONLY, st),
    }
}
