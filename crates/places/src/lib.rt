// Where in a file: how many bytes come before, the line and the column; and the line that is shown, with a mark under the place.

#![tactic(auto)]

ghost use Rattle.std.specs.Prelude.{◌≡◌, suc, ◌<◌, ◌≤◌, [], length, drop, slice_index};
ghost use Rattle.places.specs.Lines.{goes_on, ends_line, line_ends, LastLineAt, characters_in, GoesOnTo, LineGoesTo, in_line, UncutIs, PlaceIs, Passes};
ghost use Rattle.places.specs.Shown.{ShownFrom};

use std::num::{wrapping_add_u64, wrapping_add_usize};
use words::{STDOUT_FILENO, tell};

// The line and the column are counted from 1, the column in characters.
#[derive(Clone, Copy)]
pub struct Place {
    pub offset: u64,
    pub line: u64,
    pub column: u64,
}

const LINE_FEED: u8 = 10;

pub const CARRIAGE_RETURN: u8 = 13;

// Whether a byte is a character's second, third or fourth: those are 80 to BF.
pub fn goes_on(b: u8) -> bool
    ensures { result ≡ goes_on b }
{
    (b >= 0x80) & (b < 0xC0)
}

// Whether a line ends with the byte at a place: a line feed, or a carriage return with no line feed behind it. What is passed is whole
// tokens, so a carriage return that is the last byte has none.
pub fn ends_line(bytes: &[u8], i: usize) -> bool
    requires { i < length bytes.now }
    ensures { result ≡ ends_line (slice_index bytes.now i) (drop (suc i) bytes.now) }
{
    let b = bytes[i];
    if b == LINE_FEED {
        return true;
    }
    if b != CARRIAGE_RETURN {
        return false;
    }
    let next = i + 1;
    if next == bytes.len() {
        return true;
    }
    bytes[next] != LINE_FEED
}

// Where the last line of some bytes starts.
pub fn last_line(bytes: &[u8]) -> usize
    ensures { LastLineAt bytes.now result }
{
    for i in (0..bytes.len()).rev() {
        if ends_line(bytes, i) {
            return i + 1;
        }
    }
    0
}

// How many characters start in some bytes.
fn characters(bytes: &[u8]) -> u64
    ensures { result ≡ characters_in bytes.now }
{
    bytes.iter().filter(|b| !goes_on(**b)).count() as u64
}

// How many lines end in some bytes.
pub fn line_ends(bytes: &[u8]) -> u64
    ensures { result ≡ line_ends bytes.now }
{
    let mut n: u64 = 0;
    for i in 0..bytes.len() {
        if ends_line(bytes, i) {
            n = wrapping_add_u64(n, 1);
        }
    }
    n
}

impl Place {
    // Before the first byte.
    pub fn start() -> Place
        ensures { PlaceIs [] result }
    {
        Place {
            offset: 0,
            line: 1,
            column: 1,
        }
    }

    // Behind the bytes that a file begins with.
    pub fn behind(bytes: &[u8]) -> Place
        ensures { PlaceIs bytes.now result }
    {
        let start = Place::start();
        start.after(bytes, wrapping_add_u64(1, line_ends(bytes)))
    }

    // Past some bytes, behind which it is that line. A line ends with a line feed that is handed on: LF, CR LF or CR. No file is so long that a number here would
    // begin again from 0.
    pub fn after(self, bytes: &[u8], line: u64) -> Place
        ensures { Passes self bytes.now line result }
    {
        let from = last_line(bytes);
        let column = if from == 0 { self.column } else { 1 };
        Place {
            offset: wrapping_add_u64(self.offset, bytes.len() as u64),
            line: line,
            column: wrapping_add_u64(column, characters(&bytes[from..])),
        }
    }
}

// How many bytes at the start are the rest of a character that starts before them.
fn rest_of_character(bytes: &[u8]) -> usize
    ensures { GoesOnTo bytes.now result }
{
    bytes
        .iter()
        .position(|b| !goes_on(*b))
        .unwrap_or(bytes.len())
}

// The most bytes that are shown of a line before a place, and behind it.
const BEFORE: usize = 48;

const BEHIND: usize = 32;

// From which of the bytes before a place on its line is shown, and whether bytes of the line before those are left out.
#[derive(Clone, Copy)]
struct Shown {
    from: usize,
    more: bool,
}

// What is shown of the line before a place, by all the bytes before it, or by the last of them, one more than are shown.
fn shown_before(bytes: &[u8]) -> Shown
    ensures { ShownFrom bytes.now result }
{
    let start = last_line(bytes);
    if bytes.len() - start <= BEFORE {
        return Shown {
            from: start,
            more: false,
        };
    }
    let from = bytes.len() - BEFORE;
    Shown {
        from: from + rest_of_character(&bytes[from..]),
        more: true,
    }
}

// The line before a place, as far as it is shown; two dots in front say that something of it is left out. Answers in how many columns.
fn tell_line_before(fd: i32, bytes: &[u8]) -> usize {
    let shown = shown_before(bytes);
    let from = shown.from;
    if shown.more {
        tell(fd, b".. ");
        return wrapping_add_usize(explain::show(fd, &bytes[from..]), 3);
    }
    explain::show(fd, &bytes[from..])
}

pub fn say_line_before(bytes: &[u8]) -> usize {
    tell_line_before(STDOUT_FILENO, bytes)
}

// So many spaces.
fn tell_spaces(fd: i32, n: usize) {
    for _ in 0..n {
        tell(fd, b" ");
    }
}

// A mark under a column, counted from 0.
fn tell_mark(fd: i32, column: usize) {
    tell_spaces(fd, column);
    tell(fd, b"^\n");
}

pub fn say_mark(column: usize) {
    tell_mark(STDOUT_FILENO, column);
}

// The bytes of the longest character.
const LONGEST_CHARACTER: usize = 4;

// As many of the first n bytes as cut no character: what is left out starts with one.
pub fn uncut(bytes: &[u8], n: usize) -> usize
    ensures { UncutIs bytes.now n result }
{
    if bytes.len() <= n {
        return bytes.len();
    }
    let mut i = n;
    for _passed in 0..LONGEST_CHARACTER {
        if !goes_on(bytes[i]) {
            return i;
        }
        i = i.saturating_sub(1);
    }
    n
}

// Whether a byte is no line's end, nor a part of one.
fn in_line(b: u8) -> bool
    ensures { result ≡ in_line b }
{
    !((b == LINE_FEED) | (b == CARRIAGE_RETURN))
}

// How many of these bytes stand before the line's end.
fn rest_of_line(bytes: &[u8]) -> usize
    ensures { LineGoesTo bytes.now result }
{
    bytes
        .iter()
        .position(|b| !in_line(*b))
        .unwrap_or(bytes.len())
}

fn tell_rest_of_line(fd: i32, bytes: &[u8]) {
    let most = uncut(bytes, BEHIND);
    let shown = &bytes[0..most];
    let n = rest_of_line(shown);
    explain::show(fd, &shown[0..n]);
}

// The line of a text that a place stands in, and a mark under the place; both behind so many spaces.
fn tell_line(fd: i32, text: &[u8], at: usize, margin: usize)
    requires { at ≤ length text.now }
{
    tell_spaces(fd, margin);
    let column = tell_line_before(fd, &text[0..at]);
    tell_rest_of_line(fd, &text[at..]);
    tell(fd, b"\n");
    tell_spaces(fd, margin);
    tell_mark(fd, column);
}

pub fn say_line(text: &[u8], at: usize, margin: usize)
    requires { at ≤ length text.now }
{
    tell_line(STDOUT_FILENO, text, at, margin);
}

// A number in decimal digits.
pub fn say_count(n: u64) {
    io::print_decimal(STDOUT_FILENO, n);
}

// How far everything was right.
fn tell_place(fd: i32, place: Place) {
    tell(fd, b"Refused after ");
    io::print_decimal(fd, place.offset);
    tell(fd, b" bytes, at line ");
    io::print_decimal(fd, place.line);
    tell(fd, b", column ");
    io::print_decimal(fd, place.column);
    tell(fd, b". ");
}

pub fn say_place(place: Place) {
    tell_place(STDOUT_FILENO, place);
}

// Where a text is refused, and the line of that place with a mark under it.
pub fn tell_where(fd: i32, text: &[u8], at: usize)
    requires { at ≤ length text.now }
{
    tell_place(fd, Place::behind(&text[0..at]));
    if at == text.len() {
        tell(fd, b"The text ends too early:\n");
    } else {
        tell(fd, b"What stands there is marked:\n");
    }
    tell_line(fd, text, at, 0);
}
