// Characters and names, in bytes: UTF-8 (RFC 3629) within XML 1.0's Char set, the bytes of names, white space, digits.

#![tactic(auto)]

ghost use Rattle.std.specs.Prelude.{◌≡◌, ◌≤◌, ◌<◌, length, get_or};
ghost use Rattle.text.specs.Chars.{DecodedIs, CharIs};
ghost use Rattle.text.specs.Names.{name_first, name_byte, blank};
ghost use Rattle.text.specs.Numerals.{digit_value};

#[derive(Clone, Copy)]
pub enum Decoded {
    // The character, and how many bytes it takes.
    Whole(u32, usize),
    // All the bytes there are begin a character.
    Begun,
    // They neither start with a character nor begin one.
    Bad,
}

// The character that f starts with.
pub fn decode(f: &[u8]) -> Decoded
    ensures { DecodedIs f.now result }
{
    if f.len() == 0 {
        return Decoded::Begun;
    }
    let a = f[0];
    if a < 32 {
        // Of the controls only tab, line feed and carriage return.
        if a == 9 {
            return Decoded::Whole(9, 1);
        }
        if a == 10 {
            return Decoded::Whole(10, 1);
        }
        if a == 13 {
            return Decoded::Whole(13, 1);
        }
        return Decoded::Bad;
    }
    if a < 128 {
        return Decoded::Whole(a as u32, 1);
    }
    if a < 194 {
        // No first byte, or one that only over-long forms have.
        return Decoded::Bad;
    }
    if a < 224 {
        return two(f);
    }
    if a < 240 {
        return three(f);
    }
    if a < 245 {
        return four(f);
    }
    Decoded::Bad
}

fn two(f: &[u8]) -> Decoded
    requires { (0 < length f.now) × (194 ≤ get_or f.now 0 0) × (get_or f.now 0 0 < 224) }
    ensures { DecodedIs f.now result }
{
    if f.len() < 2 {
        return Decoded::Begun;
    }
    let b = f[1];
    if b < 128 || 192 <= b {
        return Decoded::Bad;
    }
    Decoded::Whole((f[0] as u32 - 192) * 64 + (b as u32 - 128), 2)
}

fn three(f: &[u8]) -> Decoded
    requires { (0 < length f.now) × (224 ≤ get_or f.now 0 0) × (get_or f.now 0 0 < 240) }
    ensures { DecodedIs f.now result }
{
    if f.len() < 2 {
        return Decoded::Begun;
    }
    let b = f[1];
    if b < 128 || 192 <= b {
        return Decoded::Bad;
    }
    // The character without its last six bits: none that two bytes can hold, no surrogate (D800 to DFFF).
    let y = (f[0] as u32 - 224) * 64 + (b as u32 - 128);
    if y < 32 {
        return Decoded::Bad;
    }
    if 864 <= y {
        if y < 896 {
            return Decoded::Bad;
        }
    }
    if f.len() < 3 {
        return Decoded::Begun;
    }
    let d = f[2];
    if d < 128 || 192 <= d {
        return Decoded::Bad;
    }
    let c = y * 64 + (d as u32 - 128);
    if 65534 <= c {
        return Decoded::Bad;
    }
    Decoded::Whole(c, 3)
}

fn four(f: &[u8]) -> Decoded
    requires { (0 < length f.now) × (240 ≤ get_or f.now 0 0) × (get_or f.now 0 0 < 245) }
    ensures { DecodedIs f.now result }
{
    if f.len() < 2 {
        return Decoded::Begun;
    }
    let b = f[1];
    if b < 128 || 192 <= b {
        return Decoded::Bad;
    }
    // The character without its last twelve bits: none that three bytes can hold, none past 10FFFF.
    let y = (f[0] as u32 - 240) * 64 + (b as u32 - 128);
    if y < 16 || 272 <= y {
        return Decoded::Bad;
    }
    if f.len() < 3 {
        return Decoded::Begun;
    }
    let d = f[2];
    if d < 128 || 192 <= d {
        return Decoded::Bad;
    }
    if f.len() < 4 {
        return Decoded::Begun;
    }
    let e = f[3];
    if e < 128 || 192 <= e {
        return Decoded::Bad;
    }
    Decoded::Whole((y * 64 + (d as u32 - 128)) * 64 + (e as u32 - 128), 4)
}

// Whether a name may start with the byte.
pub fn name_first(b: u8) -> bool
    ensures { result ≡ name_first b }
{
    ((65 <= b) & (b <= 90)) | (((97 <= b) & (b <= 122)) | (b == 95))
}

// Whether a name may have the byte after its first.
pub fn name_byte(b: u8) -> bool
    ensures { result ≡ name_byte b }
{
    name_first(b) | (((48 <= b) & (b <= 57)) | ((b == 46) | (b == 45)))
}

// Whether the byte is white space.
pub fn blank(b: u8) -> bool
    ensures { result ≡ blank b }
{
    (b == 32) | ((b == 9) | ((b == 13) | (b == 10)))
}

// Whether the number is a character of the Char set.
pub fn is_char(c: u32) -> bool
    ensures { CharIs c result }
{
    if c < 32 {
        // Of the controls only tab, line feed and carriage return.
        if c == 9 {
            return true;
        }
        if c == 10 {
            return true;
        }
        return c == 13;
    }
    if c < 55296 {
        return true;
    }
    if c < 57344 {
        // A surrogate.
        return false;
    }
    if c < 65534 {
        return true;
    }
    if c < 65536 {
        return false;
    }
    c <= 1114111
}

// The value of a digit, decimal or hexadecimal; 16 for any other byte.
pub fn digit(b: u8) -> u32
    ensures { result ≡ digit_value b }
{
    if b < 48 {
        return 16;
    }
    if b < 58 {
        return b as u32 - 48;
    }
    if b < 65 {
        return 16;
    }
    if b < 71 {
        return b as u32 - 55;
    }
    if b < 97 {
        return 16;
    }
    if b < 103 {
        return b as u32 - 87;
    }
    16
}
