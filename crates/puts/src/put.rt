// Put and put record on one channel: the checks are the same, and what is added differs.
ghost use Rattle.std.specs.Prelude.{true, false, List, ◌≡◌, ℕ, ◌<◌, eqb, length};
ghost use Rattle.layout.specs.Image.{Disk, Geometry, Whole, geometry_of, disk};
ghost use Rattle.layout.specs.Volume.{data_sector, good};
ghost use Rattle.layout.specs.declared.State.TheVariants.{Writing};
ghost use Rattle.rules.specs.Get.{advanced};
ghost use Rattle.rules.specs.Put.{sent, put_keeps, put_from, writable, put_on, put_as};
ghost use Rattle.puts.specs.Recorded.{told};

use super::add::{added, put_some};
use super::record::put_line;
use directory::flags::is_43;
use files::chain::fits;
use image::link::next;
use image::slot::count;
use layout::State;
use layout::density::Medium;
use layout::status::{self, Status};
use rules::answers::refused;
use rules::{Added, Advanced, Form};
use volume::table::table_good;

// The slot is $43, with a count of at most 707, and its last sector fits and has next sector 0.
#[tactic(auto, unfolding(rules::specs::Put::writable), using(crate::proofs::Slots::is43_slot, crate::proofs::Slots::fits_range))]
fn writable(m: Medium, image: &[u8], slot: u16, last: u16) -> bool
    requires { Whole m image.now }
    ensures { result ≡ writable (geometry_of m) (disk m image.now) slot last }
{
    is_43(m, image, slot)
        && fits(m, image, slot, last)
        && (count(m, image, slot) <= 707) & (next(m, image, last) == 0)
}

// What adding bytes left as an answer, with the writing channel after it.
fn writing(slot: u16, a: Added) -> Advanced
    ensures { result ≡ advanced a.status a.count (Writing slot a.last) }
{
    Advanced {
        status: a.status,
        count: a.count,
        state: State::Writing { slot, last: a.last },
    }
}

// Nothing is to be added of n lent bytes: a put record has its $9B even where there are none.
fn adds_none(form: Form, n: usize) -> bool
    ensures { (b : List ℕ) → length b ≡ n → result ≡ eqb (length (sent form b)) 0 }
{
    match form {
        Form::Characters => n == 0,
        Form::Record => false,
    }
}

// The lent bytes added, or the line that begins them, as many as fit.
fn add_as(m: Medium, image: &mut [u8], form: Form, slot: u16, last: u16, buffer: &[u8]) -> Added
    requires { Whole m image.old × (slot < 64) × (data_sector last ≡ true) × (good (disk m image.old 360) ≡ true) }
    ensures { let o = put_from (geometry_of m) (sent form buffer.now) (disk m image.old) slot last 0 in
        (result ≡ told form buffer.now o.added) × (disk m image.new ≡ o.disk) }
{
    match form {
        Form::Characters => put_some(m, image, slot, last, buffer),
        Form::Record => put_line(m, image, slot, last, buffer),
    }
}

// A put of either form on a writing channel, with the notch open.
#[tactic(auto, unfolding(rules::specs::Put::put_on, rules::specs::Put::puts, layout::specs::Basics::check), using(crate::proofs::Whole::answer_nothing))]
fn put_writing(
    m: Medium,
    image: &mut [u8],
    form: Form,
    slot: u16,
    last: u16,
    buffer: &[u8],
) -> Advanced
    requires { Whole m image.old }
    ensures { let o = put_as (geometry_of m) form (disk m image.old) false (Writing slot last) buffer.now in
        (result ≡ o.answer) × (disk m image.new ≡ o.disk) }
{
    if adds_none(form, buffer.len()) {
        return writing(slot, added(status::SUCCESS, 0, last));
    }
    if !table_good(m, image) {
        return writing(slot, added(status::BAD_TABLE, 0, last));
    }
    if !writable(m, image, slot, last) {
        return writing(slot, added(status::BAD_CHAIN, 0, last));
    }
    writing(slot, add_as(m, image, form, slot, last, buffer))
}

// What a put answers with the notch closed: it changes nothing.
#[tactic(auto, unfolding(rules::specs::Put::put_on, layout::specs::Basics::check))]
pub fn protected_status(st: State) -> Status
    ensures { (g : Geometry) (d : Disk) (b : List ℕ) → put_on g d true st b ≡ put_keeps result d st }
{
    match st {
        State::Closed => status::CHANNEL_CLOSED,
        State::Reading { .. } => status::READ_ONLY,
        State::Writing { .. } => status::WRITE_PROTECTED,
    }
}

// A put of either form on one channel adds the lent bytes, or their line, at the end.
#[tactic(auto, unfolding(rules::specs::Put::put_on))]
pub fn put_as(
    m: Medium,
    image: &mut [u8],
    protected: bool,
    form: Form,
    st: State,
    buffer: &[u8],
) -> Advanced
    requires { Whole m image.old }
    ensures { let o = put_as (geometry_of m) form (disk m image.old) protected st buffer.now in
        (result ≡ o.answer) × (disk m image.new ≡ o.disk) }
{
    if protected {
        return refused(protected_status(st), st);
    }
    match st {
        State::Closed => refused(status::CHANNEL_CLOSED, st),
        State::Reading { .. } => refused(status::READ_ONLY, st),
        State::Writing { slot, last } => put_writing(m, image, form, slot, last, buffer),
    }
}
