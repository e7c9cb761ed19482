// The request that the named line of a record spells.
ghost use Rattle.std.specs.Prelude.{◌≡◌, ◌≤◌};
ghost use Rattle.std.specs.Str.{bytes_eq};
ghost use Rattle.host_record.specs.Request.{request_of};
ghost use Rattle.script_model.specs.Named.{force_of, high_bits, named_bits, named_group};
ghost use Rattle.script_model.specs.Named.{has_named_group, named_request};
ghost use Rattle.script_model.specs.Print.{is_named as is_named_by};

use host_record::{Opcode, Request};

/// Whether the line that names what the record asks for gives the same bytes.
pub fn is_named(opcode: Opcode, bytes: &[u8; 32]) -> bool
    ensures { result ≡ is_named_by opcode bytes.now }
{
    spells(opcode, Request::from_bytes(bytes), bytes)
}

// Whether the named line of the request of these bytes gives them.
fn spells(opcode: Opcode, request: Request, bytes: &[u8; 32]) -> bool
    requires { request ≡ request_of bytes.now }
    ensures { result ≡ is_named_by opcode bytes.now }
{
    if has_named_group(&request) {
        is_same(&named_request(opcode, &request).to_bytes(), bytes)
    } else {
        false
    }
}

fn is_same(left: &[u8], right: &[u8]) -> bool
    ensures { result ≡ bytes_eq left.now right.now }
{
    left == right
}

// The bit of the command that forces a write.
fn force_of(request: &Request) -> u32
    ensures value { result ≡ force_of request.now }
    ensures bound { result ≤ 0x1000 }
{
    if request.is_forced() { 0x1000 } else { 0 }
}

/// The bits of the command above the opcode, but for the one that forces a write.
pub fn high_bits(request: &Request) -> u32
    ensures { result ≡ high_bits request.now }
{
    (request.command - request.command % 256).saturating_sub(force_of(request))
}

// What group words add to the command: nothing where none are printed.
fn named_bits(request: &Request) -> u32
    ensures value { result ≡ named_bits request.now }
    ensures bound { result ≤ 0xc00 }
{
    let bits = high_bits(request);
    if bits == 0x800 {
        0x800
    } else if bits == 0xc00 {
        0xc00
    } else {
        0
    }
}

fn named_group(request: &Request) -> u16
    ensures { result ≡ named_group request.now }
{
    if named_bits(request) == 0 {
        0
    } else {
        request.group
    }
}

// Whether a line can name the group.
fn has_named_group(request: &Request) -> bool
    ensures { result ≡ has_named_group request.now }
{
    named_bits(request) == 0 || request.group <= 7
}

// The request with its reqid and the group that a line can name, and nothing else.
fn bare_request(request: &Request) -> Request
    ensures value { result ≡ record {
      command = named_bits request.now;
      reqid = request.now.reqid;
      group = named_group request.now;
      vmoid = 0;
      length = 0;
      vmo_offset = 0;
      dev_offset = 0;
    } }
    ensures bound { result.command ≤ 0xc00 }
{
    Request {
        command: named_bits(request),
        reqid: request.reqid,
        group: named_group(request),
        vmoid: 0,
        length: 0,
        vmo_offset: 0,
        dev_offset: 0,
    }
}

fn named_request(opcode: Opcode, request: &Request) -> Request
    ensures { result ≡ named_request opcode request.now }
{
    let bare = bare_request(request);
    match opcode {
        Opcode::Read => Request {
            command: 1 + bare.command,
            vmoid: request.vmoid,
            length: request.length,
            vmo_offset: request.vmo_offset,
            dev_offset: request.dev_offset,
            ..bare
        },
        Opcode::Write => Request {
            command: 2 + force_of(request) + bare.command,
            vmoid: request.vmoid,
            length: request.length,
            vmo_offset: request.vmo_offset,
            dev_offset: request.dev_offset,
            ..bare
        },
        Opcode::Flush => Request {
            command: 3 + bare.command,
            ..bare
        },
        Opcode::Trim => Request {
            command: 4 + bare.command,
            length: request.length,
            dev_offset: request.dev_offset,
            ..bare
        },
        Opcode::Close => Request {
            command: 5 + bare.command,
            vmoid: request.vmoid,
            ..bare
        },
    }
}
