// A stream of draws, and the requests that are made of them.
ghost use Rattle.std.specs.Prelude.{◌≡◌, ◌<◌, ◌/◌};
ghost use Rattle.script_model.specs.Generate.{next, after_request, request_from, request_line};
ghost use Rattle.script_model.specs.Generate.{transfer};

use host_record::Request;
use script_model::ScriptLine;

/// A stream of draws, by its state.
#[derive(Drop)]
pub struct Draws {
    pub state: u32,
    ghost small: { state < 2147483648 },
}

impl Draws {
    #[tactic(auto, unfolding(script_model::specs::Generate::next))]
    fn draw(&mut self) -> u32
        ensures state { self.new.state ≡ next self.old.state }
        ensures value { result ≡ next self.old.state / 65536 }
    {
        self.state = ((1103515245 * u64::from(self.state) + 12345) % 2147483648) as u32;
        self.state / 65536
    }

    /// The line that sends request `n`, by four draws.
    #[tactic(auto, unfolding(script_model::specs::Generate::request_line))]
    pub fn request_line(&mut self, n: u32) -> ScriptLine
        ensures state { self.new.state ≡ after_request self.old.state }
        ensures line { result ≡ request_line self.old.state n }
    {
        let a = self.draw();
        let b = self.draw();
        let c = self.draw();
        let e = self.draw();
        ScriptLine::Send {
            bytes: request(n, a, b, c, e).to_bytes(),
        }
    }
}

// Request `n` by its four draws.
#[tactic(auto, unfolding(script_model::specs::Generate::request_from))]
fn request(n: u32, a: u32, b: u32, c: u32, e: u32) -> Request
    ensures { result ≡ request_from n a b c e }
{
    let length = 1 + b % 4;
    let vmo_offset = u64::from(c % 5);
    let dev_offset = u64::from(e % 16);
    let kind = a % 8;
    if kind < 3 {
        transfer(2, n, length, vmo_offset, dev_offset)
    } else if kind < 6 {
        transfer(1, n, length, vmo_offset, dev_offset)
    } else if kind == 6 {
        Request {
            command: 4,
            reqid: n,
            group: 0,
            vmoid: 0,
            length,
            vmo_offset: 0,
            dev_offset,
        }
    } else {
        Request {
            command: 3,
            reqid: n,
            group: 0,
            vmoid: 0,
            length: 0,
            vmo_offset: 0,
            dev_offset: 0,
        }
    }
}

// A request that moves blocks between the device and buffer 1.
fn transfer(command: u32, reqid: u32, length: u32, vmo_offset: u64, dev_offset: u64) -> Request
    ensures { result ≡ transfer command reqid length vmo_offset dev_offset }
{
    Request {
        command,
        reqid,
        group: 0,
        vmoid: 1,
        length,
        vmo_offset,
        dev_offset,
    }
}
