// The CRC-32 of bytes.
ghost use Rattle.std.specs.Prelude.{◌≡◌, ◌≤◌, length};
ghost use Rattle.host_gpt.specs.Crc.{crc_of};
ghost use Rattle.host_gpt.specs.Header.{header_bytes};
ghost use Rattle.host_gpt.specs.Register.{byte_after, bytes_after};

use crate::crc_table::TABLE;

/// The CRC-32 that seals headers and entry arrays: polynomial 0xEDB88320, the lowest bit of each
/// byte first, with the register complemented before and after.
pub fn crc32(bytes: &[u8]) -> u32
    ensures { result ≡ crc_of bytes.now }
{
    take_bytes(u32::MAX, bytes) ^ u32::MAX
}

/// The CRC of the first `size` bytes of a header, with its own field as zero.
pub fn header_crc32(header: &[u8], size: usize) -> u32
    requires long { 20 ≤ size }
    requires fits { size ≤ length header.now }
    ensures { result ≡ crc_of (header_bytes size header.now) }
{
    let before = take_bytes(u32::MAX, &header[..16]);
    let field = take_bytes(before, &[0; 4]);
    take_bytes(field, &header[20..size]) ^ u32::MAX
}

// The register after bytes.
fn take_bytes(register: u32, bytes: &[u8]) -> u32
    ensures { result ≡ bytes_after register bytes.now }
{
    let mut register = register;
    for byte in bytes {
        register = take_byte(register, *byte);
    }
    register
}

// The register after a byte.
fn take_byte(register: u32, byte: u8) -> u32
    ensures { result ≡ byte_after register byte }
{
    let low = ((register ^ byte as u32) % 256) as usize;
    (register >> 8) ^ TABLE[low]
}
