ghost use Rattle.std.specs.Prelude.{◌≡◌};
ghost use Rattle.host_record.specs.Command.{opcode, is_grouped, is_last, is_forced};
ghost use Rattle.host_record.specs.Command.{has_unknown_bit};
ghost use Rattle.host_record.specs.Request.{request_bytes, request_of};

use crate::opcode::Opcode;
use byteorder::{ByteOrder, LittleEndian};

/// What a client asks for. Lengths and offsets are in blocks, and a field that the opcode doesn't
/// use is free.
#[derive(Clone, Copy, Debug, PartialEq, Eq)]
pub struct Request {
    /// The opcode in the low eight bits; `0x800` makes it a member of its group, `0x400` the last
    /// one, and `0x1000` forces a write.
    pub command: u32,
    /// A number of the client's own, which the answer gives back.
    pub reqid: u32,
    pub group: u16,
    /// The id of the buffer.
    pub vmoid: u16,
    pub length: u32,
    pub vmo_offset: u64,
    pub dev_offset: u64,
}

impl Request {
    /// The request that has these bytes.
    #[tactic(auto, using(crate::proofs::RequestLemmas::bytes_of_request))]
    pub fn from_bytes(b: &[u8; 32]) -> Request
        ensures fields { result ≡ request_of b.now }
        ensures again { request_bytes result ≡ b.now }
    {
        Request {
            command: LittleEndian::read_u32(b),
            reqid: LittleEndian::read_u32(&b[4..]),
            group: LittleEndian::read_u16(&b[8..]),
            vmoid: LittleEndian::read_u16(&b[10..]),
            length: LittleEndian::read_u32(&b[12..]),
            vmo_offset: LittleEndian::read_u64(&b[16..]),
            dev_offset: LittleEndian::read_u64(&b[24..]),
        }
    }

    /// The bytes of the request.
    pub fn to_bytes(&self) -> [u8; 32]
        ensures bytes { result ≡ request_bytes self.now }
        ensures again { request_of result ≡ self.now }
    {
        encoded(*self)
    }

    /// What the request asks for; `None` where its opcode is unknown.
    #[tactic(auto, unfolding(crate::specs::Command::opcode))]
    pub fn opcode(&self) -> Option<Opcode>
        ensures { result ≡ opcode self.now }
    {
        match self.command % 256 {
            1 => Some(Opcode::Read),
            2 => Some(Opcode::Write),
            3 => Some(Opcode::Flush),
            4 => Some(Opcode::Trim),
            5 => Some(Opcode::Close),
            _ => None,
        }
    }

    /// Whether the request has a group bit. It is then a member of its group, where there is one of
    /// that number.
    pub fn is_grouped(&self) -> bool
        ensures { result ≡ is_grouped self.now }
    {
        self.command & 0xc00 != 0
    }

    /// Whether the request closes its group.
    pub fn is_last(&self) -> bool
        ensures { result ≡ is_last self.now }
    {
        self.command & 0x400 != 0
    }

    /// Whether the request is to be durable when it is answered. Only a write may ask for this.
    pub fn is_forced(&self) -> bool
        ensures { result ≡ is_forced self.now }
    {
        self.command & 0x1000 != 0
    }

    /// Whether the command has a bit that means nothing for its opcode.
    pub fn has_unknown_bit(&self) -> bool
        ensures { result ≡ has_unknown_bit self.now }
    {
        self.command & 0xffffe300 != 0 || self.is_forced() && self.opcode() != Some(Opcode::Write)
    }
}

// The bytes of a request.
#[tactic(auto, using(crate::proofs::RequestLemmas::request_of_bytes))]
fn encoded(request: Request) -> [u8; 32]
    ensures bytes { result ≡ request_bytes request }
    ensures again { request_of result ≡ request }
{
    let mut out = [0; 32];
    LittleEndian::write_u32(&mut out, request.command);
    LittleEndian::write_u32(&mut out[4..], request.reqid);
    LittleEndian::write_u16(&mut out[8..], request.group);
    LittleEndian::write_u16(&mut out[10..], request.vmoid);
    LittleEndian::write_u32(&mut out[12..], request.length);
    LittleEndian::write_u64(&mut out[16..], request.vmo_offset);
    LittleEndian::write_u64(&mut out[24..], request.dev_offset);
    out
}
