// The two densities, and the images that hold them. What lies where is defined in specs/Image.antt.
ghost use Rattle.std.specs.Prelude.{◌≡◌};
ghost use Rattle.layout.specs.Image.{single_density, double_density};

// A density: the bytes of its sectors from the fourth on, and how many of a file sector's bytes are data.
#[derive(Clone, Copy)]
pub struct Density {
    pub size: usize,
    pub room: usize,
}

impl Density {
    // Sectors 1 to 3 have 128 bytes in every density, and so many lie before sector 4.
    pub const BOOT_SIZE: usize = 128;

    pub const BOOT_BYTES: usize = 3 * Density::BOOT_SIZE;

    // Single density: bytes of a sector, data bytes of a file sector, and bytes of all 720 sectors.
    pub const SINGLE_SIZE: usize = 128;

    pub const SINGLE_ROOM: usize = 125;

    pub const SINGLE_BYTES: usize = Density::BOOT_BYTES + 717 * Density::SINGLE_SIZE;

    // The same of double density.
    pub const DOUBLE_SIZE: usize = 256;

    pub const DOUBLE_ROOM: usize = 253;

    pub const DOUBLE_BYTES: usize = Density::BOOT_BYTES + 717 * Density::DOUBLE_SIZE;

    // A file sector's last three bytes lie right behind its data: slot number and high bits of the next sector, then its low bits, then the bytes in use. The places of these two, counted from there.
    pub const NEXT: usize = 1;

    pub const USED: usize = 2;

    pub fn single() -> Density
        ensures { result ≡ single_density }
    {
        Density {
            size: Density::SINGLE_SIZE,
            room: Density::SINGLE_ROOM,
        }
    }

    pub fn double() -> Density
        ensures { result ≡ double_density }
    {
        Density {
            size: Density::DOUBLE_SIZE,
            room: Density::DOUBLE_ROOM,
        }
    }
}

// Where the sectors of an image lie: behind its header, at the sizes of its density. It goes by value through every function that touches the image. As a type parameter each function would be made once for each medium, and a contract would be no shorter.
#[derive(Clone, Copy)]
pub struct Medium {
    pub header: usize,
    pub density: Density,
}

impl Medium {
    // Bytes of an ATR's header; a raw image has none.
    pub const HEADER: usize = 16;

    // The lengths of the images that are served: a raw one, and an ATR of each density.
    pub const RAW_BYTES: usize = Density::SINGLE_BYTES;

    pub const SINGLE_ATR_BYTES: usize = Medium::HEADER + Density::SINGLE_BYTES;

    pub const DOUBLE_ATR_BYTES: usize = Medium::HEADER + Density::DOUBLE_BYTES;

    // The headers of the two ATR files: $96 $02, the length of all sectors in units of 16 bytes (low two bytes, and the high byte at 6), the sector size at 4 and 5, and zeros.
    pub const SINGLE_HEADER: [u8; 16] = *b"\x96\x02\x80\x16\x80\x00\x00\0\0\0\0\0\0\0\0\0";

    pub const DOUBLE_HEADER: [u8; 16] = *b"\x96\x02\xE8\x2C\x00\x01\x00\0\0\0\0\0\0\0\0\0";
}
