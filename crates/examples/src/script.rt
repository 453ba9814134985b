// The script run: what stands outside of braces is printed as it is, and an order is done where it stands.
ghost use Rattle.std.specs.Prelude.{◌≤◌, length};

use super::acts::act;
use super::order::Order;
use std::io;

// What stands before the brace that closes, and what stands behind it. What nothing closes goes without its last byte.
fn braced(text: &[u8]) -> (&[u8], &[u8])
    ensures { length result.1.now ≤ length text.now }
{
    match text.iter().position(|b| *b == b'}') {
        Some(close) => (&text[..close], &text[close + 1..]),
        None => (&text[..text.len().saturating_sub(1)], &[]),
    }
}

// A part of the script, on an image: what stands behind the sign that ends it. Not by std's `split`: a sign inside of braces is the order's.
pub fn run<'a>(rt: &impl Print, image: &mut [u8], script: &'a [u8]) -> io::Result<&'a [u8]> {
    let mut words = [0u16; 40];
    let mut rest = script;
    while let Some((b, behind)) = rest.split_first() {
        rest = behind;
        match b {
            b'=' => return Ok(behind),
            b'{' => {
                let (text, after) = braced(behind);
                act(rt, image, &mut words, Order::parse(text))?;
                rest = after;
            }
            _ => rt.write_all(&[*b])?,
        }
    }
    Ok(rest)
}
