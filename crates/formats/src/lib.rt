// A formatted disk: all zero but a good table with 707 free, and the header, which stays.
#![tactic(auto)]

ghost use Rattle.std.specs.Prelude.{◌≡◌};
ghost use Rattle.layout.specs.Image.{Whole, disk};
ghost use Rattle.layout.specs.Volume.{formatted};
ghost use Rattle.formats.specs.Zeros.{cleared, with_ones, with_map, with_counts};

use image::bytes::{write_byte, write_word};
use layout::density::Medium;

// All bytes behind the header set to zero.
fn clear(m: Medium, image: &mut [u8])
    requires { Whole m image.old }
    ensures { disk m image.new ≡ cleared (disk m image.old) }
{
    image[m.header..].fill(0);
}

// The map's bytes set to ones.
fn write_ones(m: Medium, image: &mut [u8])
    requires { Whole m image.old }
    ensures { disk m image.new ≡ with_ones (disk m image.old) }
{
    for j in 10..100 {
        write_byte(m, image, 360, j, 0xFF);
    }
}

// A fresh map: ones, but for the sectors 0 to 3, 360 to 367, and 368.
#[tactic(auto, unfolding(crate::specs::Zeros::with_map))]
fn write_map(m: Medium, image: &mut [u8])
    requires { Whole m image.old }
    ensures { disk m image.new ≡ with_map (disk m image.old) }
{
    write_ones(m, image);
    write_byte(m, image, 360, 10, 0x0F);
    write_byte(m, image, 360, 55, 0);
    write_byte(m, image, 360, 56, 0x7F);
}

// Volume code 2, and 707 sectors, all of them free.
#[tactic(auto, unfolding(crate::specs::Zeros::with_counts))]
fn write_counts(m: Medium, image: &mut [u8])
    requires { Whole m image.old }
    ensures { disk m image.new ≡ with_counts (disk m image.old) }
{
    write_byte(m, image, 360, 0, 2);
    write_word(m, image, 360, 1, 707);
    write_word(m, image, 360, 3, 707);
}

// The formatted disk.
pub fn format(m: Medium, image: &mut [u8])
    requires { Whole m image.old }
    ensures { disk m image.new ≡ formatted (disk m image.old) }
{
    clear(m, image);
    write_counts(m, image);
    write_map(m, image);
}
