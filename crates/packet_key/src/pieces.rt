ghost use Rattle.std.specs.Prelude.{◌≡◌, ◌+◌, ◌≤◌, ◌<◌, ◌++◌, length, take, decimal};
ghost use Rattle.std.specs.Char.{digit_char};
ghost use Rattle.std.specs.Net.Text.{hex};

use itoa::Buffer;

/// Writes the piece at the place, and answers the place behind it.
pub fn put(into: &mut [u8], at: usize, piece: &[u8]) -> usize
    requires { at + length piece.now ≤ length into.old }
    ensures end { result ≡ at + length piece.now }
    ensures front { take result into.new ≡ take at into.old ++ piece.now }
{
    let end = at + piece.len();
    into[at..end].copy_from_slice(piece);
    end
}

// In decimal, as the next one.
#[tactic(auto, using(crate::proofs::Lengths::byte_is_short))]
pub fn put_byte(into: &mut [u8], at: usize, byte: u8) -> usize
    requires { at + 3 ≤ length into.old }
    ensures most { result ≤ at + 3 }
    ensures front { take result into.new ≡ take at into.old ++ decimal byte }
{
    let mut digits = Buffer::new();
    put(into, at, digits.format(byte).as_bytes())
}

#[tactic(auto, using(crate::proofs::Lengths::port_is_short))]
pub fn put_port(into: &mut [u8], at: usize, port: u16) -> usize
    requires { at + 5 ≤ length into.old }
    ensures most { result ≤ at + 5 }
    ensures front { take result into.new ≡ take at into.old ++ decimal port }
{
    let mut digits = Buffer::new();
    put(into, at, digits.format(port).as_bytes())
}

/// The lower-case hexadecimal digit, in ASCII.
pub fn hex_digit(digit: u32) -> u8
    requires { digit < 16 }
    ensures { result ≡ digit_char digit }
{
    let digit = digit as u8;
    if digit < 10 {
        b'0' + digit
    } else {
        b'a' + (digit - 10)
    }
}

// The lower-case hexadecimal of a group, without leading zeros.
#[tactic(auto, unfolding(std::specs::Net::Text::hex))]
pub fn put_group(into: &mut [u8], at: usize, group: u16) -> usize
    requires { at + 4 ≤ length into.old }
    ensures most { result ≤ at + 4 }
    ensures front { take result into.new ≡ take at into.old ++ hex group }
{
    let group = u32::from(group);
    let digits = [
        hex_digit(group / 0x1000),
        hex_digit(group / 0x100 % 16),
        hex_digit(group / 0x10 % 16),
        hex_digit(group % 16),
    ];
    let zeros = if group >= 0x1000 {
        0
    } else if group >= 0x100 {
        1
    } else if group >= 0x10 {
        2
    } else {
        3
    };
    put(into, at, &digits[zeros..])
}
