// The trailer: its twelve numbers, and the first that does not fit.
ghost use Rattle.std.specs.Prelude.{◌<◌};
ghost use Rattle.wrong.specs.Read.{FieldAsRead, TrailerAt};

use crate::{LONGEST, say_then, word};
use words::say;

// The trailer's length.
const TRAILER: usize = 24;

// Two of its numbers, counted from 0: the length of the strings and the mark; and what the mark is.
const LENGTH: usize = 9;

const MARK: usize = 11;

const MARKED: usize = 21336;

// The most bytes that strings have.
const STRINGS: usize = 8192;

// The trailer's first byte; 0 where there is no trailer.
fn start(s: &[u8]) -> usize
    ensures { TrailerAt s.now result }
{
    if s.len() < TRAILER {
        return 0;
    }
    if s.len() > LONGEST {
        return 0;
    }
    s.len() - TRAILER
}

// The trailer's number k, from 0: tag offset, tag count, production offset, count, node offset, count, program offset, length, string offset,
// length, start, mark.
pub fn field_of(s: &[u8], k: usize) -> usize
    requires { k < 12 }
    ensures { FieldAsRead s.now k result }
{
    word(s, start(s) + 2 * k)
}

// The least that the trailer's number k may be, where those before it fit: a part starts where the one before it ends.
fn least_of(s: &[u8], k: usize) -> usize {
    match k {
        1 | 3 => 1,
        2 => 16 * field_of(s, 1),
        4 => field_of(s, 2) + 12 * field_of(s, 3),
        6 => field_of(s, 4) + 6 * field_of(s, 5),
        8 => field_of(s, 6) + field_of(s, 7),
        MARK => MARKED,
        _ => 0,
    }
}

// The most: a count and a length have room, an offset and the mark have none.
fn most_of(k: usize, least: usize) -> usize {
    match k {
        1 | 3 => 64,
        5 => 256,
        7 => 16384,
        _ => least,
    }
}

// Whether the trailer's number k may be what it is, where those before it fit.
fn fits(s: &[u8], k: usize) -> bool
    requires { k < 12 }
{
    let is = field_of(s, k);
    let least = least_of(s, k);
    (least <= is) & (is <= most_of(k, least))
}

// The first number that does not fit: of the mark, and then of those from the offset of the tags to that of the strings. Where all these do, it is the length of
// the strings.
fn first_unfit(s: &[u8]) -> usize
    ensures { result < 12 }
{
    if !fits(s, MARK) {
        return MARK;
    }
    for k in 0..LENGTH {
        if !fits(s, k) {
            return k;
        }
    }
    LENGTH
}

// The trailer's number k by its name; the start, which is number 10, always fits.
fn say_name(k: usize) {
    let names =
        b"offset of the tags,count of the tags,offset of the productions,count of the productions,offset of the nodes,count of the nodes,offset of the programs,length of the programs,offset of the strings,length of the strings,start,mark";
    if let Some(name) = names.split(|b| *b == b',').nth(k) {
        say(name);
    }
}

fn say_bounds(least: usize, most: usize) {
    say_then(b", and has to be ", least);
    if least < most {
        say_then(b" to ", most);
    }
    say(b".\n");
}

// Says that the trailer's number k does not fit, and what it has to be.
fn say_unfit(s: &[u8], k: usize, least: usize, most: usize)
    requires { k < 12 }
{
    say(b"The first number there that does not fit is the ");
    say_name(k);
    say_then(b", from byte ", start(s) + 2 * k);
    say_then(b" of the file on (counted from 0): it is ", field_of(s, k));
    say_bounds(least, most);
}

// Strings that have more bytes than strings may have, whatever the trailer says of their length.
fn say_too_many(from: usize, count: usize) {
    say_then(b"Between the programs and the trailer, from byte ", from);
    say_then(b" of the file on (counted from 0), there are ", count);
    say(b" bytes: they are the strings, and strings have at most 8192.\n");
}

// The strings, where all before them fits. They end where the trailer starts.
fn say_strings(s: &[u8]) {
    let from = field_of(s, LENGTH - 1);
    let end = start(s);
    if from > end {
        say(b"The parts that it names end behind its own first byte: the file is cut off.\n");
        return;
    }
    let count = end - from;
    if count > STRINGS {
        say_too_many(from, count);
        return;
    }
    if field_of(s, LENGTH) != count {
        say_unfit(s, LENGTH, count, count);
    }
}

// The first number that does not fit.
pub(crate) fn say_trailer(s: &[u8]) {
    let k = first_unfit(s);
    if k == LENGTH {
        say_strings(s);
        return;
    }
    let least = least_of(s, k);
    say_unfit(s, k, least, most_of(k, least));
}
