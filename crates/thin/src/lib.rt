// The thin calls: one channel record is lent, to be advanced by a read or a write.
#![tactic(auto)]

pub mod by_value;

ghost use Rattle.std.specs.Prelude.{◌≡◌};
ghost use Rattle.rules.specs.Thin.{reply_of, channel_after, thin_get, thin_put};

use by_value::{read_on, write_on};
use layout::Channel;
use rules::Reply;

// Fills the lent buffer from the lent record on.
pub fn thin_get(image: &[u8], channel: &mut Channel, buffer: &mut [u8]) -> Reply
    ensures { (result ≡ reply_of (thin_get image.now channel.old buffer.old).answer)
        × (channel.new ≡ channel_after (thin_get image.now channel.old buffer.old).answer)
        × (buffer.new ≡ (thin_get image.now channel.old buffer.old).buffer) }
{
    let read = read_on(image, *channel, buffer);
    channel.state = read.state;
    Reply {
        status: read.status,
        count: read.count,
    }
}

// Adds the lent bytes at the end of the lent record's file; with the notch closed it is refused.
pub fn thin_put(image: &mut [u8], protected: bool, channel: &mut Channel, buffer: &[u8]) -> Reply
    ensures { (result ≡ reply_of (thin_put image.old protected channel.old buffer.now).answer)
        × (channel.new ≡ channel_after (thin_put image.old protected channel.old buffer.now).answer)
        × (image.new ≡ (thin_put image.old protected channel.old buffer.now).image) }
{
    let written = write_on(image, protected, *channel, buffer);
    channel.state = written.state;
    Reply {
        status: written.status,
        count: written.count,
    }
}
