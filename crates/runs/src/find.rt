// The search for $9B, the end of a line, by sixteen bytes at once.
ghost use Rattle.std.specs.Prelude.{◌≡◌, ◌+◌, ◌-◌, ◌≤◌, length, get_or};
ghost use Rattle.layout.specs.Basics.{first_from, any_below};
ghost use Rattle.layout.specs.Image.{Whole, geometry_of, disk};
ghost use Rattle.layout.specs.File.{ends_line};

use image::bytes::start;
use layout::END_OF_LINE;
use layout::density::Medium;

// One of the sixteen bytes from i on is $9B: joined by `|`, with no branch between them, the sixteen tests are one wide comparison.
#[tactic(auto, unfolding(layout::specs::Basics::any_below, layout::specs::File::ends_line))]
fn some_end(s: &[u8], i: usize) -> bool
    requires { i + 16 ≤ length s.now }
    ensures { result ≡ any_below 16 (λ j. ends_line (λ k. get_or s.now k 0) (i + j)) }
{
    let mut some = false;
    for j in 0..16 {
        some |= END_OF_LINE == s[i + j];
    }
    some
}

// Sixteens without a $9B are passed over, from `at` on and before `end`: where the first begins that has one, or where fewer than sixteen bytes are left.
fn skip(s: &[u8], at: usize, end: usize) -> usize
    requires { (at ≤ end) × (end ≤ length s.now) }
    ensures { (at ≤ result) × (result ≤ end) × (first_from (ends_line (λ j. get_or s.now j 0)) (end - at) at ≡ first_from (ends_line (λ j. get_or s.now j 0)) (end - result) result) }
{
    // No `step_by`: where no sixteen has a $9B, the place that the loop ends at is the answer.
    let mut i = at;
    while 16 <= end - i {
        if some_end(s, i) {
            return i;
        }
        i += 16;
    }
    i
}

// The first $9B from `at` on and before `end`, byte by byte: its place, or `end`.
fn first_byte(s: &[u8], at: usize, end: usize) -> usize
    requires { (at ≤ end) × (end ≤ length s.now) }
    ensures { result ≡ first_from (ends_line (λ j. get_or s.now j 0)) (end - at) at }
{
    for i in at..end {
        if END_OF_LINE == s[i] {
            return i;
        }
    }
    end
}

// The first $9B among n bytes from `at` on: its place, or the one behind them.
pub fn first_end(s: &[u8], at: usize, n: usize) -> usize
    requires { at + n ≤ length s.now }
    ensures { result ≡ first_from (ends_line (λ j. get_or s.now j 0)) n at }
{
    let end = at + n;
    first_byte(s, skip(s, at, end), end)
}

// The first $9B among n bytes of a sector, from `place` on: its place, or the one behind them.
pub fn end_in(m: Medium, image: &[u8], sector: u16, place: usize, n: usize) -> usize
    requires { Whole m image.now × (4 ≤ sector) × (sector ≤ 720) × (place + n ≤ (geometry_of m).size sector) }
    ensures { result ≡ first_from (ends_line (disk m image.now sector)) n place }
{
    let first = start(m, sector);
    first_end(image, first + place, n) - first
}
