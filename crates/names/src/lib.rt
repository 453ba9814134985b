// Names taken apart: `D:` or `D1:`, a name and its extension; rename's two names; format's device alone.
#![tactic(auto)]

ghost use Rattle.std.specs.Prelude.{Bool, ℕ, Err, ◌≡◌, ◌+◌, ◌≤◌, ◌<◌, length};
ghost use Rattle.layout.specs.Names.{has_device, has_unit, body, name_end, whole_end, padded, as_word, name_byte, name_at, read_as, read_name, parsed, parse_name, old_name, new_name, read_device, TellsName, TellsParsed};
ghost use Rattle.layout.specs.Status.{verdict};
ghost use Rattle.names.specs.Ends.{Tests};
ghost use Rattle.names.specs.Device.{device_status};

use chars::{char, comma, digit, end_of, ending, letter};
use layout::status::{BAD_DEVICE, BAD_NAME, BAD_UNIT, Status};
use layout::{FileName, Parsed};

// `D`, an optional digit, and a colon.
#[tactic(auto, unfolding(layout::specs::Names::has_device))]
fn has_device(text: &[u8]) -> bool
    ensures { result ≡ has_device text.now }
{
    let x = char(text, 1);
    (char(text, 0) == 68) & ((x == 58) | (digit(x) & (char(text, 2) == 58)))
}

// The digit, where there is one, is 1.
#[tactic(auto, unfolding(layout::specs::Names::has_unit))]
fn has_unit(text: &[u8]) -> bool
    ensures { result ≡ has_unit text.now }
{
    let x = char(text, 1);
    (x == 58) | (x == 49)
}

// The place behind the colon.
#[tactic(auto, unfolding(layout::specs::Names::body))]
fn body(text: &[u8]) -> usize
    ensures { (result ≡ body text.now) × (result ≤ 3) }
{
    if char(text, 1) == 58 {
        return 2;
    }
    3
}

// Where the name that begins at i ends.
#[tactic(auto, unfolding(layout::specs::Names::name_end))]
fn name_end(text: &[u8], i: usize) -> usize
    requires { i ≤ 32 }
    ensures { (result ≡ name_end text.now i) × (result ≤ i + 8) }
{
    end_of(text, 8, i)
}

// Where the extension behind it ends, if there is one.
#[tactic(auto, using(crate::proofs::Inside::whole_steps), unfolding(layout::specs::Names::whole_end))]
fn whole_end(text: &[u8], i: usize, e: usize) -> usize
    requires { (i ≤ 32) × (e ≤ i + 8) × (e ≡ name_end text.now i) }
    ensures { (result ≡ whole_end text.now i) × (e ≤ result) × (result ≤ i + 12) }
{
    if char(text, e) == 46 {
        return end_of(text, 3, e + 1);
    }
    e
}

// Byte j of what stands from i to e, blank padded.
#[tactic(auto, using(crate::proofs::Inside::padded_steps), unfolding(layout::specs::Names::padded))]
fn padded(text: &[u8], i: usize, e: usize, j: usize) -> u8
    requires { (i ≤ 64) × (j < 8) × (e ≤ length text.now) }
    ensures { result ≡ padded text.now i e j }
{
    let k = i + j;
    if k < e {
        return text[k];
    }
    32
}

// The name as a word, low byte first.
#[tactic(auto, unfolding(layout::specs::Names::as_word))]
fn name_word(text: &[u8], i: usize, e: usize) -> u64
    requires { (i ≤ 64) × (e ≤ length text.now) }
    ensures { result ≡ as_word (padded text.now i e) 8 }
{
    u64::from_le_bytes(std::array::from_fn(|j| padded(text, i, e, j)))
}

// The extension as a word. Its five zeros are written out: one function for both, of any length, would be longer than the two.
#[tactic(auto, unfolding(layout::specs::Names::as_word))]
fn extension_word(text: &[u8], i: usize, e: usize) -> u64
    requires { (i ≤ 64) × (e ≤ length text.now) }
    ensures { result ≡ as_word (padded text.now i e) 3 }
{
    let [a, b, c]: [u8; 3] = std::array::from_fn(|j| padded(text, i, e, j));
    u64::from_le_bytes([a, b, c, 0, 0, 0, 0, 0])
}

// A refused name, which no byte ends.
fn refused(status: Status) -> Parsed
    ensures { result ≡ parsed (Err status) 0 }
{
    Parsed {
        name: Err(status),
        place: 0,
    }
}

// The name that begins at i, and where it ends: a letter first, and a byte at the end that `ends` passes.
fn name_at<F: Fn(u16) -> bool>(ends: F, text: &[u8], i: usize) -> Parsed
    requires { F.IsAlwaysCallable ends × (i ≤ 32) }
    ensures { let l = text.now in (p : ℕ → Bool) → Tests (F.post ends) p → result ≡ parsed (name_at p l i) (whole_end l i) }
{
    let e = name_end(text, i);
    let w = whole_end(text, i, e);
    let well_formed = letter(char(text, i)) & ends(char(text, w));
    if !well_formed {
        return refused(BAD_NAME);
    }
    Parsed {
        name: Ok(FileName {
            name: name_word(text, i, e),
            extension: extension_word(text, e + 1, w),
        }),
        place: w,
    }
}

// Device and unit: 130, 160, or they are as they should be.
#[tactic(auto, unfolding(crate::specs::Device::device_status, layout::specs::Basics::check))]
fn device_status(text: &[u8]) -> Result<(), Status>
    ensures { result ≡ verdict (device_status text.now) }
{
    if !has_device(text) {
        return Err(BAD_DEVICE);
    }
    if !has_unit(text) {
        return Err(BAD_UNIT);
    }
    Ok(())
}

// Device, unit and name.
#[tactic(auto, unfolding(layout::specs::Names::read_as, crate::specs::Device::device_status, layout::specs::Basics::check))]
fn read_as<F: Fn(u16) -> bool>(ends: F, text: &[u8]) -> Parsed
    requires { F.IsAlwaysCallable ends }
    ensures { let l = text.now in (p : ℕ → Bool) → Tests (F.post ends) p → result ≡ parsed (read_as p l) (whole_end l (body l)) }
{
    if let Err(status) = device_status(text) {
        return refused(status);
    }
    name_at(ends, text, body(text))
}

// A name, or its one refusal, with the place of the byte that ends it.
pub fn parse_name(text: &[u8]) -> Parsed
    ensures { TellsParsed (parse_name text.now) result }
{
    read_as(ending, text)
}

// The eleven padded bytes of a name, or its one refusal.
pub fn read_name(text: &[u8]) -> Result<FileName, Status>
    ensures { TellsName (read_name text.now) result }
{
    read_as(ending, text).name
}

// The first of rename's two names.
pub fn old_name(text: &[u8]) -> Result<FileName, Status>
    ensures { TellsName (old_name text.now) result }
{
    read_as(comma, text).name
}

// The second of them, behind the comma.
pub fn new_name(text: &[u8]) -> Result<FileName, Status>
    ensures { TellsName (new_name text.now) result }
{
    let i = body(text);
    let e = name_end(text, i);
    name_at(ending, text, whole_end(text, i, e) + 1).name
}

// A device alone, or its refusal.
#[tactic(auto, unfolding(layout::specs::Names::read_device, crate::specs::Device::device_status, layout::specs::Basics::check))]
pub fn read_device(text: &[u8]) -> Result<(), Status>
    ensures { result ≡ verdict (read_device text.now) }
{
    device_status(text)?;
    if !ending(char(text, body(text))) {
        return Err(BAD_NAME);
    }
    Ok(())
}

// Byte j of the eleven that two words hold.
#[tactic(auto, unfolding(layout::specs::Names::name_byte))]
pub fn name_byte(name: u64, extension: u64, j: usize) -> u8
    requires { j < 11 }
    ensures { result ≡ name_byte name extension j }
{
    if j < 8 {
        return name.to_le_bytes()[j];
    }
    extension.to_le_bytes()[j - 8]
}
