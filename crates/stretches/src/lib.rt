// Stretches of a part: characters one after another where a run is steady, and white space where it is no event.

#![tactic(auto)]

ghost use Rattle.std.specs.Prelude.{◌≡◌, true, ◌≤◌, length};
ghost use Rattle.lent.specs.Put.{PutAs};
ghost use Rattle.text.specs.Chars.{Char};
ghost use Rattle.output.specs.Reach.{farthest};
ghost use Rattle.runs.specs.Visits.{most_visits};
ghost use Rattle.steady.specs.Steady.{shown};
ghost use Rattle.stretches.specs.Stretched.{StretchedAs, CarriedAs, BlanksAs};
ghost use Rattle.stretches.specs.Literal.{plain, space, tag_or_end, allows, LiteralIs};

use state::State;
use tokens::{Answer, Cursor, Event};

// The most bytes that a character is written as.
const LONGEST: usize = 5;

// No output is written past here: 2^62.
const FARTHEST: usize = 0x4000000000000000;

// How far a stretch goes: the place of the part behind it, where the next byte of output goes, and the count of visits.
#[derive(Clone, Copy)]
pub struct Stretch {
    pub at: usize,
    pub put: usize,
    pub count: u64,
}

// A character that stands in the part itself, by no reference, and how many bytes it takes.
#[derive(Clone, Copy)]
pub struct Literal {
    pub character: u32,
    pub width: usize,
}

// Whether a byte is a character by itself wherever it stands, and is written as it is: one of ASCII from the space on other than < & >.
fn is_plain(b: u8) -> bool
    ensures { result ≡ plain b }
{
    (32 <= b) & ((b < 127) & ((b != 60) & ((b != 38) & (b != 62))))
}

// Whether a byte is white space by itself wherever it stands: a space, a tab, a line feed.
fn is_space(b: u8) -> bool
    ensures { result ≡ space b }
{
    (b == 32) | ((b == 9) | (b == 10))
}

// What the reader says of the place: the character that stands there, if one does.
fn read_literal(part: &[u8], at: usize) -> Option<Literal>
    requires { at ≤ length part.now }
    ensures { LiteralIs part.now at result }
{
    let cursor = Cursor { at: at };
    let answer = cursor.read(part);
    let Answer::Token(event, next) = answer else {
        return None;
    };
    let Event::Character(c, literal) = event else {
        return None;
    };
    if !literal {
        return None;
    }
    Some(Literal {
        character: c,
        width: next.at - at,
    })
}

// Whether no character can stand there: a stretch that ends at a tag or with the part asks the reader nothing.
fn tag_or_end(part: &[u8], at: usize) -> bool
    ensures { result ≡ tag_or_end part.now at }
{
    if at < part.len() {
        return part[at] == 60;
    }
    true
}

// Writes a character where echo is on.
fn show(c: u32, on: bool, out: &mut [u8], at: usize) -> usize
    requires at_le_farthest { at ≤ farthest }
    requires char { Char c }
    ensures { PutAs true out.old at (shown on c) out.new result }
{
    if on {
        return output::put_char(out, at, c, true);
    }
    at
}

// The same of a plain byte.
fn show_plain(b: u8, on: bool, out: &mut [u8], at: usize) -> usize
    requires at_le_farthest { at ≤ farthest }
    requires b_value { plain b ≡ true }
    ensures { PutAs true out.old at (shown on b) out.new result }
{
    if on {
        lent::put_byte(out, at, b, true);
        return at + 1;
    }
    at
}

// Whether the limits allow one more character: its visits, room for the longest, and how far output reaches.
fn allowed(k: u64, count: u64, room: usize, to: usize) -> bool
    requires { k ≤ most_visits }
    ensures { result ≡ allows k count room to }
{
    (count <= State::MOST_VISITS - k) & ((LONGEST <= room) & (to <= FARTHEST))
}

// A stretch carried on over plain bytes, without the reader: as many as stand there and the limits allow.
fn plains(part: &[u8], from: Stretch, on: bool, k: u64, out: &mut [u8]) -> Stretch
    requires at_in_bounds { from.at ≤ length part.now }
    requires put_in_bounds { from.put ≤ length out.old }
    requires k_le_most_visits { k ≤ most_visits }
    requires count_le_most_visits { from.count ≤ most_visits }
    ensures { CarriedAs part.now on k from out.old result out.new }
{
    let mut to = from.put;
    let mut count = from.count;
    for at in from.at..part.len() {
        let b = part[at];
        let one = is_plain(b) & allowed(k, count, out.len() - to, to);
        if !one {
            return Stretch {
                at: at,
                put: to,
                count: count,
            };
        }
        to = show_plain(b, on, out, to);
        count = count + k;
    }
    Stretch {
        at: part.len(),
        put: to,
        count: count,
    }
}

// The characters from a place on, of which each counts k visits and is written where echo is on: as many as stand there and have room.
pub fn characters(
    part: &[u8],
    from: usize,
    on: bool,
    k: u64,
    n: u64,
    out: &mut [u8],
    put: usize,
) -> Stretch
    requires from_in_bounds { from ≤ length part.now }
    requires put_in_bounds { put ≤ length out.old }
    requires k_le_most_visits { k ≤ most_visits }
    requires n_le_most_visits { n ≤ most_visits }
    ensures { StretchedAs part.now from on k n out.old put result out.new }
{
    let mut at = from;
    let mut to = put;
    let mut count = n;
    // A loop: each step goes on by what was read, which no range gives.
    loop {
        let here = Stretch {
            at: at,
            put: to,
            count: count,
        };
        let far = plains(part, here, on, k, out);
        if tag_or_end(part, far.at) {
            return far;
        }
        let Some(next) = read_literal(part, far.at) else {
            return far;
        };
        if !allowed(k, far.count, out.len() - far.put, far.put) {
            return far;
        }
        to = show(next.character, on, out, far.put);
        count = far.count + k;
        at = far.at + next.width;
    }
}

// The place behind the white space from a place on, as far as it is spelled as it is.
pub fn blanks(part: &[u8], from: usize) -> usize
    requires { from ≤ length part.now }
    ensures { BlanksAs part.now from result }
{
    for behind in from..part.len() {
        if !is_space(part[behind]) {
            return behind;
        }
    }
    part.len()
}
