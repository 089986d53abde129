//! The bytes that steps and events carry.
ghost use Rattle.std.specs.Prelude.{◌≡◌, ◌<◌, false, [], ◌∷◌, Some, IfOk};
ghost use Rattle.std.specs.Fmt.{WritesOnOk, digit_glyph};
ghost use Rattle.blocking_world_laws.specs.Hex.{hex_text, hex_byte, hex_digits};

use std::alloc::AllocError;
use std::fmt;
use std::marker::Model;

/// The bytes of a step or an event. Contracts see them as a list.
#[derive(Debug, Drop)]
pub struct Bytes {
    items: Vec<u8>,
}

impl Model for Bytes {
    ghost use Rattle.std.specs.Prelude.{List, ℕ};

    ghost Value = { List ℕ };

    ghost view = { λ bytes. bytes.items.items };
}

impl Bytes {
    /// These bytes. Takes no memory.
    pub fn new(items: Vec<u8>) -> Bytes
        ensures { result ≡ items.items }
    {
        Bytes { items }
    }

    /// The bytes, in order.
    pub fn as_slice(&self) -> &[u8]
        ensures { result.now ≡ self.now }
    {
        self.items.as_slice()
    }

    /// The same bytes once more. Err where there is no memory for them.
    pub fn try_clone(&self) -> Result<Bytes, AllocError>
        ensures { IfOk result (λ bytes. bytes ≡ self.now) }
    {
        let items = self.items.clone()?;
        Ok(Bytes { items })
    }
}

impl fmt::Display for Bytes {
    ghost output = { λ bytes. Some (hex_text bytes) };

    fn fmt<W: fmt::Write>(&self, f: &mut fmt::Formatter<W>) -> fmt::Result {
        if self.items.is_empty() {
            return f.write_str("-");
        }
        write_digits(f, self.as_slice())
    }
}

// Writes two digits for each of these bytes.
fn write_digits<W: fmt::Write>(f: &mut fmt::Formatter<W>, bytes: &[u8]) -> fmt::Result
    ensures { WritesOnOk W.write_str_gives f.old result (hex_digits bytes.now) f.new }
{
    for byte in bytes {
        write_byte(f, *byte)?;
    }
    Ok(())
}

// Writes the two digits of a byte.
fn write_byte<W: fmt::Write>(f: &mut fmt::Formatter<W>, byte: u8) -> fmt::Result
    ensures { WritesOnOk W.write_str_gives f.old result (hex_byte byte) f.new }
{
    let high = digit(byte / 16);
    let low = digit(byte % 16);
    write!(f, "{high}{low}")
}

// The digit of this value.
fn digit(value: u8) -> &'static str
    requires { value < 16 }
    ensures { result.now ≡ digit_glyph false value ∷ [] }
{
    match value {
        0 => "0",
        1 => "1",
        2 => "2",
        3 => "3",
        4 => "4",
        5 => "5",
        6 => "6",
        7 => "7",
        8 => "8",
        9 => "9",
        10 => "a",
        11 => "b",
        12 => "c",
        13 => "d",
        14 => "e",
        15 => "f",
        _ => unreachable!(),
    }
}
