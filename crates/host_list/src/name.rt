// The name of an entry, as it is printed.
use std::marker::Model;

// Two quotes, and six bytes for each of 36 units.
const ROOM: usize = 218;

/// A text of at most 218 bytes.
#[derive(Drop)]
pub struct NameText {
    bytes: [u8; ROOM],
    len: usize,
}

impl Model for NameText {
    ghost use Rattle.std.specs.Prelude.{ℕ, ◌≤◌, List, take};

    ghost Value = { List ℕ };

    ghost view = { λ t. take t.len t.bytes };

    ghost invariant = { λ t. t.len ≤ 218 };
}

impl NameText {
    ghost use Rattle.std.specs.Prelude.{◌≡◌, ◌+◌, ◌*◌, ◌≤◌, ◌++◌, [], length, flat_map};
    ghost use Rattle.host_list.specs.Name.{name_text, unit_text};

    /// The units of a name in quotes, up to the first that is zero.
    #[tactic(auto, unfolding(crate::specs::Name::name_text))]
    pub fn of(name: &[u16; 36]) -> NameText
        ensures { result ≡ name_text name.now }
    {
        let mut text = NameText::new();
        text.push(b"\"");
        text.push_units(before_zero(name));
        text.push(b"\"");
        text
    }

    pub fn as_slice(&self) -> &[u8]
        ensures { result.now ≡ self.now }
    {
        &self.bytes[..self.len]
    }

    fn new() -> NameText
        ensures { result ≡ [] }
    {
        NameText {
            bytes: [0; ROOM],
            len: 0,
        }
    }

    fn push(&mut self, piece: &[u8])
        requires { length self.old + length piece.now ≤ 218 }
        ensures { self.new ≡ self.old ++ piece.now }
    {
        let end = self.len + piece.len();
        self.bytes[self.len..end].copy_from_slice(piece);
        self.len = end;
    }

    fn push_units(&mut self, units: &[u16])
        requires { length self.old + 6 * length units.now ≤ 218 }
        ensures { self.new ≡ self.old ++ flat_map unit_text units.now }
    {
        for unit in units {
            self.push_unit(*unit);
        }
    }

    fn push_unit(&mut self, unit: u16)
        requires { length self.old + 6 ≤ 218 }
        ensures { self.new ≡ self.old ++ unit_text unit }
    {
        if is_plain(unit) {
            self.push(&[unit as u8]);
        } else {
            let high = (unit / 256) as u8;
            let low = (unit % 256) as u8;
            self.push(&[
                b'\\',
                b'u',
                digit(high / 16),
                digit(high % 16),
                digit(low / 16),
                digit(low % 16),
            ]);
        }
    }
}

ghost use Rattle.std.specs.List.{position_or_len};
ghost use Rattle.std.specs.Prelude.{◌≡◌, ◌==◌, ◌<◌, ◌≤◌, false, length, IsTrue};
ghost use Rattle.std.specs.Fmt.{digit_glyph};
ghost use Rattle.host_list.specs.Name.{is_plain, units_of};

// The units before the first that is zero.
fn before_zero(name: &[u16]) -> &[u16]
    ensures value { result.now ≡ units_of name.now }
    ensures shorter { length result.now ≤ length name.now }
{
    let end = first_zero(name);
    &name[..end]
}

// The place of the first unit that is zero, or the length.
fn first_zero(name: &[u16]) -> usize
    ensures value { result ≡ position_or_len (λ u. u == 0) name.now }
    ensures bound { result ≤ length name.now }
{
    for (index, unit) in name.iter().enumerate() {
        if *unit == 0 {
            return index;
        }
    }
    name.len()
}

// Whether a unit is printed as its character.
fn is_plain(unit: u16) -> bool
    ensures value { result ≡ is_plain unit }
    ensures small { IsTrue result → unit < 127 }
{
    32 <= unit && unit <= 126 && unit != 34 && unit != 92
}

// A digit in lower case.
fn digit(value: u8) -> u8
    requires { value < 16 }
    ensures { result ≡ digit_glyph false value }
{
    if value < 10 {
        b'0' + value
    } else {
        b'a' + (value - 10)
    }
}
