// A table of eight channels in forty words.
ghost use Rattle.std.specs.Prelude.{◌≡◌, ◌+◌, ◌*◌, ◌<◌, length};
ghost use Rattle.layout.specs.Basics.{all_below};
ghost use Rattle.layout.specs.Channels.{channel};
ghost use Rattle.words.specs.Words.{state_in, channel_after, channel_at, kind_in_force, is_table, table_of, words_after, with_channel, ChangesOnly};

use super::channel::{in_force, leave_state, state_in};
use layout::{Channel, State, Table};
use std::ops::Range;

// The kind of each channel is in force. All eight are looked at, so that there is no branch.
fn kinds_in_force(words: &[u16]) -> bool
    requires { length words.now ≡ 40 }
    ensures { result ≡ all_below 8 (kind_in_force words.now) }
{
    let mut good = true;
    for c in 0..8 {
        good &= in_force(words[5 * c]);
    }
    good
}

// Forty words, each kind in force.
pub fn is_table(words: &[u16]) -> bool
    ensures { result ≡ is_table words.now }
{
    words.len() == 40 && kinds_in_force(words)
}

// Where the five words of channel c stand.
pub fn place_of(c: usize) -> Range<usize>
    requires { c < 8 }
    ensures { (result.start ≡ 5 * c) × (result.end ≡ 5 * c + 5) }
{
    5 * c..5 * c + 5
}

// A channel with the state that its words say.
fn channel_at(words: &[u16], c: usize) -> Channel
    requires { (length words.now ≡ 40) × (c < 8) }
    ensures { result ≡ channel (state_in (channel_at words.now c)) }
{
    Channel {
        state: state_in(&words[place_of(c)]),
    }
}

// The eight channels that the words say. Written out: with `array::from_fn`, which says of each call no more than that some closure gave the channel, the proof does not close.
pub fn table_of(words: &[u16]) -> Table
    requires { length words.now ≡ 40 }
    ensures { result ≡ table_of words.now }
{
    Table {
        channels: [
            channel_at(words, 0),
            channel_at(words, 1),
            channel_at(words, 2),
            channel_at(words, 3),
            channel_at(words, 4),
            channel_at(words, 5),
            channel_at(words, 6),
            channel_at(words, 7),
        ],
    }
}

// The words after a call that leaves channel c with this state and the others as they were.
fn leave_channel(words: &mut [u16], c: usize, st: State)
    requires { (length words.old ≡ 40) × (c < 8) }
    ensures { words.new ≡ with_channel words.old c (channel_after (channel_at words.old c) st) }
{
    leave_state(&mut words[place_of(c)], st);
}

// The words after a call on a channel that leaves this table. A channel above 7 names none of them.
pub fn leave_table(words: &mut [u16], channel: u8, t: Table)
    requires { ChangesOnly words.old channel t }
    ensures { words.new ≡ words_after words.old t }
{
    if channel < 8 {
        let c = channel as usize;
        leave_channel(words, c, t.channels[c].state);
    }
}
