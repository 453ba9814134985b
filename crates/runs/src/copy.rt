// Bytes copied from one slice into another, in a form that becomes wide moves.
ghost use Rattle.std.specs.Prelude.{◌≡◌, ◌+◌, ◌≤◌, length, take};
ghost use Rattle.std.proofs.lemmas.List.Edits.{sets};

use layout::density::Density;

// Of a double density sector's data bytes so many are copied first, and the rest with the last of these once more: a part with no more than 64 bytes is no loop of wide moves.
const DOUBLE_FIRST: usize = 160;

// The first `n` bytes of `from`, stored from `at` on.
fn copy_first(to: &mut [u8], at: usize, from: &[u8], n: usize)
    requires { (at + n ≤ length to.old) × (n ≤ length from.now) }
    ensures { to.new ≡ sets to.old at (take n from.now) }
{
    // No `copy_from_slice`: of 125 bytes that is a call, and of 64 or 128 as many moves of a byte beside the wide ones.
    for j in 0..n {
        to[at + j] = from[j];
    }
}

// All of them, `n` and one more: where `n` is a constant and a multiple of four, the `n` are wide moves with no rest.
fn copy_and_last(to: &mut [u8], at: usize, from: &[u8], n: usize)
    requires { (at + length from.now ≤ length to.old) × (length from.now ≡ n + 1) }
    ensures { to.new ≡ sets to.old at from.now }
{
    copy_first(to, at, from, n);
    to[at + n] = from[n];
}

// All of them in two parts, which may overlap: where the lengths are constants and multiples of 32, both are wide moves with no rest.
fn copy_parts(to: &mut [u8], at: usize, from: &[u8], first: usize, last: usize)
    requires { (at + length from.now ≤ length to.old) × (first ≤ length from.now) × (last ≤ length from.now) × (length from.now ≤ first + last) }
    ensures { to.new ≡ sets to.old at from.now }
{
    copy_first(to, at, from, first);
    let n = from.len() - last;
    let end = n + last;
    copy_first(to, at + n, &from[n..end], last);
}

// The bytes of `from` stored from `at` on. All data bytes of a sector are mostly wanted: 125 of them, or 253.
pub fn copy(to: &mut [u8], at: usize, from: &[u8])
    requires { at + length from.now ≤ length to.old }
    ensures { to.new ≡ sets to.old at from.now }
{
    let n = from.len();
    if n == Density::SINGLE_ROOM {
        copy_and_last(to, at, from, Density::SINGLE_ROOM - 1);
    } else if n == Density::DOUBLE_ROOM {
        copy_parts(
            to,
            at,
            from,
            DOUBLE_FIRST,
            Density::DOUBLE_SIZE - DOUBLE_FIRST,
        );
    } else {
        copy_first(to, at, from, n);
    }
}

// The same, where all bytes of a sector are mostly wanted: 128 of them, or 256. By itself: each of the two compares a length with two constants, and cuts it otherwise.
pub fn copy_sector(to: &mut [u8], at: usize, from: &[u8])
    requires { at + length from.now ≤ length to.old }
    ensures { to.new ≡ sets to.old at from.now }
{
    let n = from.len();
    if n == Density::SINGLE_SIZE {
        copy_first(to, at, from, Density::SINGLE_SIZE);
    } else if n == Density::DOUBLE_SIZE {
        copy_first(to, at, from, Density::DOUBLE_SIZE);
    } else {
        copy_first(to, at, from, n);
    }
}
