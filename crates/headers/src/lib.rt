// The header of an ATR file, written.
#![tactic(auto)]

ghost use Rattle.std.specs.Prelude.{Bool, List, MatchOption, ◌≡◌, ℕ, ◌≤◌, length};
ghost use Rattle.layout.specs.Basics.{if};
ghost use Rattle.layout.specs.Status.{success, bad_image, write_protected};
ghost use Rattle.std.proofs.lemmas.List.Edits.{sets};
ghost use Rattle.rules.specs.WriteHeader.{header_call, header_outcome};

use layout::density::Medium;
use layout::status;
use rules::Reply;
use rules::answers::reply;
use runs::copy::copy;

// The header of an image of so many bytes, if that is an ATR's length.
fn header_of(n: usize) -> Option<[u8; 16]>
    ensures { MatchOption result ((l : List ℕ) (p : Bool) → length l ≡ n → header_call l p ≡ header_outcome bad_image l)
        (λ h. (16 ≤ n) × ((l : List ℕ) (p : Bool) → length l ≡ n → header_call l p ≡ if p (header_outcome write_protected l) (header_outcome success (sets l 0 h)))) }
{
    match n {
        Medium::SINGLE_ATR_BYTES => Some(Medium::SINGLE_HEADER),
        Medium::DOUBLE_ATR_BYTES => Some(Medium::DOUBLE_HEADER),
        _ => None,
    }
}

// The header written, on any image: its length alone says which, and 203 is answered for a length that is no ATR's, then 144.
pub fn write_header(image: &mut [u8], protected: bool) -> Reply
    ensures { let o = header_call image.old protected in
        (result ≡ o.reply) × (image.new ≡ o.image) }
{
    let Some(header) = header_of(image.len()) else {
        return reply(status::BAD_IMAGE, 0);
    };
    if protected {
        return reply(status::WRITE_PROTECTED, 0);
    }
    copy(image, 0, &header);
    reply(status::SUCCESS, 0)
}
