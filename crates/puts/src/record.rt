// A line of text added at a file's end, with the $9B that ends it.
ghost use Rattle.std.specs.Prelude.{true, ◌≡◌, ◌+◌, ◌≤◌, ◌<◌};
ghost use Rattle.layout.specs.Image.{Whole, geometry_of, disk};
ghost use Rattle.layout.specs.Volume.{data_sector, good};
ghost use Rattle.rules.specs.declared.Form.TheVariants.{Record};
ghost use Rattle.rules.specs.Put.{sent, put_from};
ghost use Rattle.puts.specs.Recorded.{told};

use super::add::{put_end, put_some};
use layout::density::Medium;
use layout::status;
use rules::Added;
use runs::find::first_end;

// The line that begins the buffer added, as much of it as fits: through its $9B, or the whole buffer and a $9B behind it.
pub fn put_line(m: Medium, image: &mut [u8], slot: u16, last: u16, buffer: &[u8]) -> Added
    requires { Whole m image.old × (slot < 64) × (data_sector last ≡ true) × (good (disk m image.old 360) ≡ true) }
    ensures { let o = put_from (geometry_of m) (sent Record buffer.now) (disk m image.old) slot last 0 in
        (result ≡ told Record buffer.now o.added) × (disk m image.new ≡ o.disk) }
{
    let n = buffer.len();
    let end = first_end(buffer, 0, n);
    let line = n.min(end + 1);
    let a = put_some(m, image, slot, last, &buffer[..line]);
    if end < n {
        return a;
    }
    if a.status != status::SUCCESS {
        return a;
    }
    put_end(m, image, slot, a)
}
