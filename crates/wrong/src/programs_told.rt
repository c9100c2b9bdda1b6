// The first wrong program, or else the first field that names none.
ghost use Rattle.std.specs.Prelude.{◌<◌, IfSome};

use crate::{field_of, say_record, say_then, word};
use words::say;

// The most bytes that programs have.
const PROGRAMS: usize = 16384;

// The first program's start that is not before `stop`, or that of a wrong one. Each program has a byte, so the turns suffice.
fn start_from(section: &[u8], tags: usize, strings: &[u8], stop: usize) -> usize {
    let mut at = 0;
    for _ in 0..PROGRAMS {
        if at >= stop {
            return at;
        }
        let Some(read) = programs::program(section, at, tags, strings) else {
            return at;
        };
        at = read.next;
    }
    at
}

// Whether a field names no program, or the start of one that its visit may hold.
fn field_fits(section: &[u8], tags: usize, strings: &[u8], field: usize, second: bool) -> bool {
    let Some(start) = programs::start_named(field) else {
        return true;
    };
    if start_from(section, tags, strings, start) != start {
        return false;
    }
    let Some(read) = programs::program(section, start, tags, strings) else {
        return false;
    };
    if second { read.second } else { read.first }
}

// The first byte of node k's record, or of production k's.
fn record_at(s: &[u8], of_node: bool, k: usize) -> usize
    requires { k < 65536 }
    ensures { result < 851968 }
{
    if of_node {
        return field_of(s, 4) + 6 * k;
    }
    field_of(s, 2) + 12 * k
}

// The first of a record's two program fields.
fn field_at(s: &[u8], of_node: bool, k: usize) -> usize
    requires { k < 65536 }
    ensures { result < 851974 }
{
    let from = record_at(s, of_node, k);
    if of_node { from + 2 } else { from + 6 }
}

// Whether the two fields of node k, or of production k, name what they may.
fn fields_fit(s: &[u8], section: &[u8], strings: &[u8], of_node: bool, k: usize) -> bool
    requires { k < 65536 }
{
    let tags = field_of(s, 1);
    let at = field_at(s, of_node, k);
    let one = field_fits(section, tags, strings, word(s, at), false);
    let two = field_fits(section, tags, strings, word(s, at + 2), true);
    one & two
}

// The first of so many nodes, or productions, whose fields do not.
fn first_unfit(
    s: &[u8],
    section: &[u8],
    strings: &[u8],
    of_node: bool,
    count: usize,
) -> Option<usize>
    requires { count < 65536 }
    ensures { IfSome result (λ k. k < count) }
{
    for k in 0..count {
        if !fields_fit(s, section, strings, of_node, k) {
            return Some(k);
        }
    }
    None
}

// Every program is right: the first production, or else the first node, whose fields are not.
fn say_field(s: &[u8], section: &[u8], strings: &[u8]) {
    if let Some(q) = first_unfit(s, section, strings, false, field_of(s, 3)) {
        say_record(b"a program field of production", q, record_at(s, false, q));
        return;
    }
    if let Some(i) = first_unfit(s, section, strings, true, field_of(s, 5)) {
        say_record(b"a program field of node", i, record_at(s, true, i));
    }
}

fn say_of(s: &[u8], section: &[u8], strings: &[u8]) {
    let end = section.len();
    let at = start_from(section, field_of(s, 1), strings, end);
    if at >= end {
        say_field(s, section, strings);
        return;
    }
    say_then(b"The first wrong program is the one at ", at);
    say_then(b" of the programs, which start at byte ", field_of(s, 6));
    say(b" of the file (both counted from 0).\n");
}

pub(crate) fn say_program(s: &[u8]) {
    let from = field_of(s, 6);
    let to = from + field_of(s, 7);
    let first = field_of(s, 8);
    let end = first + field_of(s, 9);
    if to > s.len() {
        return;
    }
    if end > s.len() {
        return;
    }
    say_of(s, &s[from..to], &s[first..end]);
}
