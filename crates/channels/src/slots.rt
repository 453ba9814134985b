// Slots that are held, and the slot that a new file takes.
ghost use Rattle.std.specs.Prelude.{◌||◌, ◌≡◌, ◌<◌, eqb};
ghost use Rattle.layout.specs.Image.{Whole, disk};
ghost use Rattle.layout.specs.Directory.{flag, deleted, Below, TellsFound};
ghost use Rattle.layout.specs.Channels.{held, new_slot};
ghost use Rattle.layout.specs.Status.{success, no_slot};

use super::table::held_by_channel;
use directory::flags::{deleted, output_flag};
use image::slot::flag;
use layout::Table;
use layout::density::Medium;

// A channel holds its slot; a slot with flag $01 is held too.
#[tactic(auto, unfolding(layout::specs::Channels::held))]
pub fn held(m: Medium, image: &[u8], t: Table, s: u16) -> bool
    requires { Whole m image.now × (s < 64) }
    ensures { result ≡ held (disk m image.now) t s }
{
    let f = flag(m, image, s);
    held_by_channel(t, s) | output_flag(f)
}

// A slot that no file is in: deleted or zero.
fn unused(m: Medium, image: &[u8], s: u16) -> bool
    requires { Whole m image.now × (s < 64) }
    ensures { let f = flag (disk m image.now) s in result ≡ (eqb f 0 || deleted f) }
{
    let f = flag(m, image, s);
    (f == 0) | deleted(f)
}

// The lowest slot that a new file may take: unused, and held by no channel. The channels are looked at only for an unused one.
pub fn new_slot(m: Medium, image: &[u8], t: Table) -> Option<u16>
    requires { Whole m image.now }
    ensures { TellsFound success no_slot (new_slot (disk m image.now) t) result × Below result }
{
    for s in 0..64 {
        if unused(m, image, s) && !held_by_channel(t, s) {
            return Some(s);
        }
    }
    None
}
