// Bytes of a schedule as they can be read: characters as they are, and others, which could be taken for nothing or for another, by number.
ghost use Rattle.std.specs.Prelude.{◌≤◌};

use std::num::wrapping_add_usize;
use text::Decoded;
use words::{STDOUT_FILENO, tell};

// How many bytes were shown, and in how many columns.
#[derive(Clone, Copy)]
struct Step {
    bytes: usize,
    columns: usize,
}

// A byte by its number.
fn show_by_number(fd: i32, b: u8) -> Step
    ensures le_bytes { 1 ≤ result.bytes }
    ensures bytes_bound { result.bytes ≤ 4 }
{
    tell(fd, b"\\x");
    io::print_hex(fd, b as u64, 2);
    Step {
        bytes: 1,
        columns: 4,
    }
}

// The characters that are not seen, or not as themselves, from the first to the last of each range: controls and the no-break space, line and paragraph ends with the
// narrow no-break space, and what Unicode says to show nothing for (Default_Ignorable_Code_Point): marks of width 0, of direction and of a sign's other form.
const UNSEEN: [(u32, u32); 19] = [
    (0, 0x1F),
    (0x7F, 0xA0),
    (0xAD, 0xAD),
    (0x34F, 0x34F),
    (0x61C, 0x61C),
    (0x115F, 0x1160),
    (0x17B4, 0x17B5),
    (0x180B, 0x180F),
    (0x200B, 0x200F),
    (0x2028, 0x202F),
    (0x2060, 0x206F),
    (0x3164, 0x3164),
    (0xFE00, 0xFE0F),
    (0xFEFF, 0xFEFF),
    (0xFFA0, 0xFFA0),
    (0xFFF0, 0xFFF8),
    (0x1BCA0, 0x1BCA3),
    (0x1D173, 0x1D17A),
    (0xE0000, 0xE0FFF),
];

// Whether a character is seen, and as itself.
fn is_seen(c: u32) -> bool {
    for (first, last) in UNSEEN {
        if (first <= c) & (c <= last) {
            return false;
        }
    }
    true
}

// The first character or byte of some bytes, of which there is one at least. A backslash is doubled.
fn show_one(fd: i32, f: &[u8]) -> Step
    ensures le_bytes { 1 ≤ result.bytes }
    ensures bytes_bound { result.bytes ≤ 4 }
{
    let first = wrong::byte(f, 0);
    if first == b'\\' {
        tell(fd, b"\\\\");
        return Step {
            bytes: 1,
            columns: 2,
        };
    }
    let d = text::decode(f);
    let Decoded::Whole(c, n) = d else {
        return show_by_number(fd, first);
    };
    if !is_seen(c) {
        return show_by_number(fd, first);
    }
    let m = files::within(n, f);
    tell(fd, &f[..m]);
    Step {
        bytes: n.clamp(1, 4),
        columns: 1,
    }
}

// As many of the bytes that are left as were shown.
fn step_within(shown: usize, left: usize) -> usize
    requires le_shown { 1 ≤ shown }
    requires le_left { 1 ≤ left }
    ensures lower_bound { 1 ≤ result }
    ensures upper_bound { result ≤ left }
{
    shown.min(left)
}

// Shows some bytes, and answers in how many columns.
pub fn show(fd: i32, f: &[u8]) -> usize {
    let mut columns = 0;
    let mut left = f;
    // A while: each step goes on behind what it showed, which no range gives.
    while !left.is_empty() {
        let step = show_one(fd, left);
        columns = wrapping_add_usize(columns, step.columns);
        left = &left[step_within(step.bytes, left.len())..];
    }
    columns
}

// The same on standard output.
pub fn say_shown(f: &[u8]) -> usize {
    show(STDOUT_FILENO, f)
}
