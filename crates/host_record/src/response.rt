ghost use Rattle.std.specs.Prelude.{◌≡◌, ◌↔◌, IsTrue, IsSome, IfSome, Some};
ghost use Rattle.host_record.specs.Response.{all_zero, is_padded, response_bytes, response_fields};
ghost use Rattle.host_record.specs.Response.{response_of};

use byteorder::{ByteOrder, LittleEndian};

/// What a client is answered.
#[derive(Clone, Copy, Debug, PartialEq, Eq)]
pub struct Response {
    /// The number of a `Status`.
    pub status: i32,
    pub reqid: u32,
    pub group: u16,
    /// How many requests this answers.
    pub count: u32,
}

impl Response {
    /// The response that has these bytes; `None` where a byte that is to be zero isn't.
    pub fn from_bytes(b: &[u8; 32]) -> Option<Response>
        ensures fields { result ≡ response_of b.now }
        ensures padded { IsSome result ↔ IsTrue (is_padded b.now) }
        ensures again { IfSome result (λ response. response_bytes response ≡ b.now) }
    {
        if has_padding(b) {
            Some(fields(b))
        } else {
            None
        }
    }

    /// The bytes of the response.
    pub fn to_bytes(&self) -> [u8; 32]
        ensures bytes { result ≡ response_bytes self.now }
        ensures again { response_of result ≡ Some self.now }
    {
        encoded(*self)
    }
}

#[tactic(auto, unfolding(crate::specs::Response::all_zero))]
fn is_all_zero(bytes: &[u8]) -> bool
    ensures { result ≡ all_zero bytes.now }
{
    bytes.iter().all(|b| *b == 0)
}

// Whether the bytes are zero that a response leaves free.
#[tactic(auto, unfolding(crate::specs::Response::is_padded))]
fn has_padding(b: &[u8; 32]) -> bool
    ensures { result ≡ is_padded b.now }
{
    is_all_zero(&b[10..12]) && is_all_zero(&b[16..32])
}

// The fields that these bytes have in a response.
#[tactic(auto, unfolding(crate::specs::Response::response_fields))]
fn fields(b: &[u8; 32]) -> Response
    ensures { result ≡ response_fields b.now }
{
    Response {
        status: LittleEndian::read_i32(b),
        reqid: LittleEndian::read_u32(&b[4..]),
        group: LittleEndian::read_u16(&b[8..]),
        count: LittleEndian::read_u32(&b[12..]),
    }
}

// The bytes of a response.
fn encoded(response: Response) -> [u8; 32]
    ensures bytes { result ≡ response_bytes response }
    ensures again { response_of result ≡ Some response }
{
    let mut out = [0; 32];
    LittleEndian::write_i32(&mut out, response.status);
    LittleEndian::write_u32(&mut out[4..], response.reqid);
    LittleEndian::write_u16(&mut out[8..], response.group);
    LittleEndian::write_u32(&mut out[12..], response.count);
    out
}
