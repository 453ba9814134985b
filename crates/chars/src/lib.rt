// The bytes of a lent text, and the runs of letters and digits in it.
#![tactic(auto)]

ghost use Rattle.std.specs.Prelude.{◌≡◌, ◌+◌, ◌≤◌};
ghost use Rattle.layout.specs.Basics.{first_from};
ghost use Rattle.layout.specs.Names.{char, letter, digit, plain, ending, comma, not_plain};

// Byte i of the text; past its end 256, which is no byte.
#[tactic(auto, unfolding(layout::specs::Names::char))]
pub fn char(text: &[u8], i: usize) -> u16
    ensures { result ≡ char text.now i }
{
    text.get(i).map_or(256, |x| u16::from(*x))
}

// Capitals only.
#[tactic(auto, unfolding(layout::specs::Names::letter))]
pub fn letter(x: u16) -> bool
    ensures { result ≡ letter x }
{
    matches!(x, 65..=90)
}

#[tactic(auto, unfolding(layout::specs::Names::digit))]
pub fn digit(x: u16) -> bool
    ensures { result ≡ digit x }
{
    matches!(x, 48..=57)
}

// A letter or a digit.
#[tactic(auto, unfolding(layout::specs::Names::plain))]
pub fn plain(x: u16) -> bool
    ensures { result ≡ plain x }
{
    letter(x) | digit(x)
}

// 0, $9B or a blank.
#[tactic(auto, unfolding(layout::specs::Names::ending))]
pub fn ending(x: u16) -> bool
    ensures { result ≡ ending x }
{
    matches!(x, 0 | 0x9B | 32)
}

// What ends the first of rename's two names.
#[tactic(auto, unfolding(layout::specs::Names::comma))]
pub fn comma(x: u16) -> bool
    ensures { result ≡ comma x }
{
    x == 44
}

// No letter or digit stands at i.
#[tactic(auto, unfolding(layout::specs::Names::not_plain))]
pub fn not_plain(text: &[u8], i: usize) -> bool
    ensures { result ≡ not_plain text.now i }
{
    !plain(char(text, i))
}

// Where the letters and digits from i on end, at most n of them.
pub fn end_of(text: &[u8], n: usize, i: usize) -> usize
    requires { (n ≤ 64) × (i ≤ 64) }
    ensures { (result ≡ first_from (not_plain text.now) n i) × (result ≤ i + n) }
{
    for k in i..n + i {
        if not_plain(text, k) {
            return k;
        }
    }
    n + i
}
