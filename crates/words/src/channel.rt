// One channel's five words.
ghost use Rattle.std.specs.Prelude.{◌≡◌, length};
ghost use Rattle.words.specs.Words.{in_force, is_channel, state_in, channel_after};

use layout::State;

// The kinds, by the numbers that C knows them by; 0 is closed.
const READING: u16 = 1;

const WRITING: u16 = 2;

// A kind in force.
pub fn in_force(kind: u16) -> bool
    ensures { result ≡ in_force kind }
{
    kind <= WRITING
}

// Five words, the kind in force.
pub fn is_channel(words: &[u16]) -> bool
    ensures { result ≡ is_channel words.now }
{
    words.len() == 5 && in_force(words[0])
}

// The state that the words say. No impl of `From`: it and `State` are both of other crates.
pub fn state_in(words: &[u16]) -> State
    requires { length words.now ≡ 5 }
    ensures { result ≡ state_in words.now }
{
    match *words {
        [READING, slot, sector, offset, left] => State::Reading {
            slot,
            sector,
            offset,
            left,
        },
        [WRITING, slot, last, ..] => State::Writing { slot, last },
        _ => State::Closed,
    }
}

// All five words written, one by one: as one copy they are a wide move, which has to wait for the five that are put together just before it.
fn write_words(words: &mut [u16], five: [u16; 5])
    requires { length words.old ≡ 5 }
    ensures { words.new ≡ five }
{
    words[0] = five[0];
    words[1] = five[1];
    words[2] = five[2];
    words[3] = five[3];
    words[4] = five[4];
}

// The words after a call that leaves this state: where they say it already, all five stay as they were. A state that reads
// uses every word, so its words are written without a comparison: where they say it already, they are the same five. Inlined: three calls end in it.
#[inline(always)]
pub fn leave_state(words: &mut [u16], st: State)
    requires { length words.old ≡ 5 }
    ensures { words.new ≡ channel_after words.old st }
{
    match st {
        State::Closed => {
            if matches!(words[0], READING | WRITING) {
                write_words(words, [0; 5]);
            }
        }
        State::Reading {
            slot,
            sector,
            offset,
            left,
        } => write_words(words, [READING, slot, sector, offset, left]),
        State::Writing { slot, last } => {
            let same = (words[0] == WRITING) & (words[1] == slot) & (words[2] == last);
            if !same {
                write_words(words, [WRITING, slot, last, 0, 0]);
            }
        }
    }
}
