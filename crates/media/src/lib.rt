// What an image is served as.
#![tactic(auto)]

ghost use Rattle.std.specs.Prelude.{◌≡◌, ◌≤◌, ◌<◌, length};
ghost use Rattle.layout.specs.Basics.{all_below};
ghost use Rattle.layout.specs.Header.{served_as, TellsServed};
ghost use Rattle.media.specs.Same.{same_at, served_by};

use layout::density::{Density, Medium};
use layout::status::{self, Status};

// The first seven bytes are those of a header. All are compared, with no branch between them, as they are then read at once.
#[tactic(auto, unfolding(layout::specs::Basics::all_below))]
fn agrees(header: [u8; 16], image: &[u8]) -> bool
    requires { 16 ≤ length image.now }
    ensures { result ≡ all_below 7 (same_at header image.now) }
{
    let mut same = true;
    for j in 0..7 {
        same &= image[j] == header[j];
    }
    same
}

// An ATR of this length and density, by its header.
fn served_atr(header: [u8; 16], density: Density, image: &[u8]) -> Result<Medium, Status>
    requires { 16 ≤ length image.now }
    ensures { result ≡ served_by header density image.now }
{
    if !agrees(header, image) {
        return Err(status::BAD_HEADER);
    }
    Ok(Medium {
        header: Medium::HEADER,
        density,
    })
}

// What an image is served as.
pub fn served_as(image: &[u8]) -> Result<Medium, Status>
    ensures { TellsServed (served_as image.now) result }
{
    let n = image.len();
    if n == Medium::RAW_BYTES {
        let density = Density::single();
        return Ok(Medium { header: 0, density });
    }
    if n == Medium::SINGLE_ATR_BYTES {
        return served_atr(Medium::SINGLE_HEADER, Density::single(), image);
    }
    if n == Medium::DOUBLE_ATR_BYTES {
        return served_atr(Medium::DOUBLE_HEADER, Density::double(), image);
    }
    Err(status::BAD_IMAGE)
}
