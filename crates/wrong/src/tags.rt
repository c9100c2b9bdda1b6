// The first wrong tag.
ghost use Rattle.std.specs.Prelude.{◌<◌};

use crate::{byte, field_of, say_record, small};

// A tag's record.
const WIDTH: usize = 16;

// Whether a record's byte k may be b, where the name has n bytes: zeros fill the record behind it.
fn byte_fits(b: u8, k: usize, n: usize) -> bool {
    if k > n {
        return b == 0;
    }
    if k == 1 {
        return text::name_first(b);
    }
    text::name_byte(b)
}

// Whether the record at a byte has a length from 1 to 15, a name and its fill.
fn is_spelled(s: &[u8], at: usize) -> bool
    requires { at < 1048576 }
{
    let n = small(s, at);
    if (n < 1) | (n > 15) {
        return false;
    }
    for k in 1..WIDTH {
        if !byte_fits(byte(s, at + k), k, n) {
            return false;
        }
    }
    true
}

// Whether two records are the same.
fn are_same(s: &[u8], a: usize, b: usize) -> bool
    requires a_bound { a < 1048576 }
    requires b_bound { b < 1048576 }
{
    for k in 0..WIDTH {
        if byte(s, a + k) != byte(s, b + k) {
            return false;
        }
    }
    true
}

// Whether no tag before t has its record.
fn is_new(s: &[u8], t: usize) -> bool
    requires { t < 65536 }
{
    for u in 0..t {
        if are_same(s, WIDTH * u, WIDTH * t) {
            return false;
        }
    }
    true
}

pub(crate) fn say_tag(s: &[u8]) {
    let count = field_of(s, 1);
    for t in 0..count {
        if !is_spelled(s, WIDTH * t) | !is_new(s, t) {
            say_record(b"tag", t, WIDTH * t);
            return;
        }
    }
}
