// The exports: each function that C calls, under its own name, with the clauses of capi's function of that name, which it calls. A slice
// arrives as a pointer and a length.
#![tactic(auto)]

ghost use Rattle.std.specs.Prelude.{◌≡◌};
ghost use Rattle.rules.specs.Recovery.{recover_call};
ghost use Rattle.rules.specs.Sectors.{sector_call};
ghost use Rattle.rules.specs.WriteHeader.{header_call};
ghost use Rattle.words.specs.Result.{result_of};
ghost use Rattle.capi.specs.Leaves.{closed, block, cio_leaves, get_leaves, put_leaves, shown_result, name_leaves};

// A CIO call on a table of forty words. The notch is open where it is 0, here and in every function below.
#[unsafe(no_mangle)]
pub extern "C" fn dos_cio(
    image: &mut [u8],
    table: &mut [u16],
    notch: u8,
    channel: u8,
    command: u8,
    direction: u8,
    name: &[u8],
    buffer: &mut [u8],
) -> u64
    ensures { let o = cio_leaves image.old table.old (block notch channel command direction) name.now buffer.old in
        (result ≡ o.result) × (image.new ≡ o.image) × (table.new ≡ o.table) × (buffer.new ≡ o.buffer) }
{
    capi::dos_cio(
        image, table, notch, channel, command, direction, name, buffer,
    )
}

// Recovery of the deleted file of a slot.
#[unsafe(no_mangle)]
pub extern "C" fn dos_recover(image: &mut [u8], notch: u8, slot: u8) -> u64
    ensures { let o = recover_call image.old (closed notch) slot in
        (result ≡ result_of o.reply.status o.reply.count) × (image.new ≡ o.image) }
{
    capi::dos_recover(image, notch, slot)
}

// The header of an ATR file written.
#[unsafe(no_mangle)]
pub extern "C" fn dos_header(image: &mut [u8], notch: u8) -> u64
    ensures { let o = header_call image.old (closed notch) in
        (result ≡ result_of o.reply.status o.reply.count) × (image.new ≡ o.image) }
{
    capi::dos_header(image, notch)
}

// A sector read or written.
#[unsafe(no_mangle)]
pub extern "C" fn dos_sector(
    image: &mut [u8],
    notch: u8,
    device: u8,
    unit: u8,
    command: u8,
    sector: u16,
    buffer: &mut [u8],
) -> u64
    ensures { let o = sector_call image.old (closed notch) device unit command sector buffer.old in
        (result ≡ result_of o.reply.status o.reply.count) × (image.new ≡ o.image) × (buffer.new ≡ o.buffer) }
{
    capi::dos_sector(image, notch, device, unit, command, sector, buffer)
}

// Where a sector's data lies, for a named slot.
#[unsafe(no_mangle)]
pub extern "C" fn dos_show(image: &[u8], slot: u8, sector: u16) -> u64
    ensures { result ≡ shown_result image.now slot sector }
{
    capi::dos_show(image, slot, sector)
}

// A thin read on a record of five words.
#[unsafe(no_mangle)]
pub extern "C" fn dos_thin_get(image: &[u8], channel: &mut [u16], buffer: &mut [u8]) -> u64
    ensures { let o = get_leaves image.now channel.old buffer.old in
        (result ≡ o.result) × (channel.new ≡ o.channel) × (buffer.new ≡ o.buffer) }
{
    capi::dos_thin_get(image, channel, buffer)
}

// A thin write on a record of five words.
#[unsafe(no_mangle)]
pub extern "C" fn dos_thin_put(
    image: &mut [u8],
    notch: u8,
    channel: &mut [u16],
    buffer: &[u8],
) -> u64
    ensures { let o = put_leaves image.old (closed notch) channel.old buffer.now in
        (result ≡ o.result) × (image.new ≡ o.image) × (channel.new ≡ o.channel) }
{
    capi::dos_thin_put(image, notch, channel, buffer)
}

// A name taken apart into eleven lent bytes; the count is the place of its ending byte.
#[unsafe(no_mangle)]
pub extern "C" fn dos_name(name: &[u8], eleven: &mut [u8]) -> u64
    ensures { let o = name_leaves name.now eleven.old in
        (result ≡ o.result) × (eleven.new ≡ o.eleven) }
{
    capi::dos_name(name, eleven)
}
