// The text of a GUID.
ghost use Rattle.std.specs.Prelude.{◌≡◌, ◌≤◌, length};
ghost use Rattle.host_list.specs.Guid.{guid_text};
ghost use Rattle.uuid.specs.Parts.{swap_fields};

use uuid::Uuid;

/// Writes the text of a stored GUID into a buffer of 36 bytes or more.
pub fn guid_text<'b>(id: &[u8; 16], buffer: &'b mut [u8]) -> &'b [u8]
    requires { 36 ≤ length buffer.old }
    ensures { result.now ≡ guid_text id.now }
{
    from_stored(*id)
        .hyphenated()
        .encode_lower(buffer)
        .as_bytes()
}

// A GUID is stored with the low byte of its first three fields first.
fn from_stored(id: [u8; 16]) -> Uuid
    ensures { result ≡ swap_fields id }
{
    Uuid::from_bytes_le(id)
}
