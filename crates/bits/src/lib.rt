// Bits of a byte: one read, set or cleared, all counted, the highest found; and which sectors are data sectors.
#![tactic(auto)]

ghost use Rattle.std.specs.Prelude.{◌≡◌, ◌<◌};
ghost use Rattle.std.specs.Int.Count.{ones_in};
ghost use Rattle.layout.specs.Volume.{data_sector, bit, bit_on, bit_off};
ghost use Rattle.bits.specs.Highest.{Highest};

// Bit i, counted from the low end.
#[tactic(auto, unfolding(layout::specs::Volume::bit))]
pub fn bit(v: u8, i: u8) -> u8
    requires { i < 8 }
    ensures { result ≡ bit v i }
{
    (v >> i) % 2
}

// The byte with bit i set.
#[tactic(auto, using(crate::proofs::Bytes::mask_on))]
pub fn bit_on(v: u8, i: u8) -> u8
    requires { i < 8 }
    ensures { result ≡ bit_on v i }
{
    v | (1 << i)
}

// The byte with bit i cleared.
#[tactic(auto, using(crate::proofs::Bytes::mask_off))]
pub fn bit_off(v: u8, i: u8) -> u8
    requires { i < 8 }
    ensures { result ≡ bit_off v i }
{
    v & !(1 << i)
}

// How many bits are one.
#[tactic(auto, using(crate::proofs::Bytes::ones_eight))]
pub fn ones(v: u8) -> u16
    ensures { result ≡ ones_in 8 v }
{
    v.count_ones() as u16
}

// The place of the highest bit that is one, counted from the high end.
#[tactic(auto, using(crate::proofs::Bytes::leading))]
pub fn highest(v: u8) -> u16
    requires { 0 < v }
    ensures { Highest v result }
{
    v.leading_zeros() as u16
}

// Data sectors are 4 to 359 and 369 to 719.
#[tactic(auto, unfolding(layout::specs::Volume::data_sector))]
pub fn data_sector(k: u16) -> bool
    ensures { result ≡ data_sector k }
{
    matches!(k, 4..=359 | 369..=719)
}
