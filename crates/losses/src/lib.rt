// The stretches of a schedule that were dropped, told by a second reading of it: the lines, the bytes, the number in words and the first words of what was
// lost; and how many programmes were kept.

#![tactic(auto)]

mod first_words;
mod rereading;

ghost use Rattle.std.specs.Prelude.{◌≡◌, ◌<◌, ◌≤◌, length};
ghost use Rattle.losses.specs.Reports.{end_of_last};

use files::Opened;
use first_words::say_first_words;
use places::say_count;
use rereading::{Walk, pass, pass_stretch, put_mark};
use state::bytes::number_at;
use std::num::{wrapping_add_u64, wrapping_sub_u64};
use words::say;

// An entry of a report: the first byte, the last byte and the number, each in 8 bytes, the lowest first.
pub const ENTRY: usize = 24;

// Where in an entry its last byte is named, and its number.
const LAST: usize = 8;

const NUMBER: usize = 16;

// A stretch that was dropped: how many bytes come before it, how many it has, and the number that refused it.
#[derive(Clone, Copy)]
pub struct Stretch {
    pub first: u64,
    pub size: u64,
    pub number: u64,
}

// The longest tag, of which a record's start tag is one.
const TAG: usize = 32;

// The first entry of some.
fn stretch_in(report: &[u8]) -> Stretch {
    let first = number_at(report, 0);
    let last = number_at(report, LAST);
    Stretch {
        first: first,
        size: wrapping_add_u64(wrapping_sub_u64(last, first), 1),
        number: number_at(report, NUMBER),
    }
}

// How many bytes come before the end of the last stretch; none where nothing was dropped.
pub fn end_of_last(report: &[u8]) -> u64
    ensures { result ≡ end_of_last report.now }
{
    if report.len() < ENTRY {
        return 0;
    }
    let at = report.len() - ENTRY + LAST;
    wrapping_add_u64(number_at(report, at), 1)
}

// What refused a record, in short.
fn say_reason(number: u64) {
    match number {
        20 => say(b"there is something in it that is no tag and no text"),
        21 => say(b"a tag or a reference in it is longer than 32 bytes"),
        22 => say(b"an end tag in it is not that of the innermost open element"),
        23 => say(b"the sheet does not allow something in it where it stands"),
        24 => say(b"too many elements are open in it"),
        25 => say(b"a program of the sheet rejects something in it"),
        27 => say(b"the schedule ends in the middle of it"),
        _ => say(b"the count of visits would pass 2 to the 62nd in it"),
    }
}

// Which bytes they are, and why they were dropped.
fn say_bytes(s: Stretch) {
    say_count(s.size);
    say(b" bytes after the first ");
    say_count(s.first);
    say(b"; number ");
    say_count(s.number);
    say(b": ");
    say_reason(s.number);
    say(b".\n");
}

// The lines of a stretch, of which the first and the last that is not empty are known.
fn say_lines(first: u64, last: u64) {
    if first == last {
        say(b"line ");
        say_count(first);
    } else {
        say(b"lines ");
        say_count(first);
        say(b" to ");
        say_count(last);
    }
    say(b", ");
}

// One stretch, with the bytes before it still to be passed.
fn tell_stretch(file: &mut Opened, part: &mut [u8], s: Stretch, mark: &[u8], from: Walk) -> Walk {
    let before = pass(
        file,
        part,
        wrapping_sub_u64(s.first, from.offset),
        mark,
        from,
    );
    let first = before.next_line();
    let held = rereading::read_some(file, part, s.size);
    say(b"Dropped: ");
    say_first_words(&part[..held]);
    say(b"\n  ");
    let after = pass_stretch(file, part, held, s.size, before);
    if after.there {
        say_lines(first, after.solid);
    }
    say_bytes(s);
    after
}

// Every stretch, one after another.
fn tell_each(file: &mut Opened, part: &mut [u8], report: &[u8], mark: &[u8]) -> Walk {
    let mut w = Walk::start();
    for entry in report.chunks(ENTRY) {
        w = tell_stretch(file, part, stretch_in(entry), mark, w);
    }
    w
}

// Every stretch by its bytes alone.
fn tell_bytes(report: &[u8]) {
    for entry in report.chunks(ENTRY) {
        say(b"Dropped: ");
        say_bytes(stretch_in(entry));
    }
}

// How many programmes were kept: those whose start tags stand in what is left of the schedule, too.
fn tell_kept(file: &mut Opened, part: &mut [u8], mark: &[u8], from: Walk) {
    let end = pass(file, part, u64::MAX, mark, from);
    say(b"Programmes kept: ");
    say_count(end.kept);
    say(b".\n");
}

// The stretches of a report on a schedule that is open and was read once; where it was taken whole, how many programmes were kept, too. A schedule that cannot be
// read again, as from a pipe, has its bytes told.
pub fn tell_losses(file: &mut Opened, part: &mut [u8], report: &[u8], whole: bool) {
    if report.len() == 0 {
        return;
    }
    let s = stretch_in(report);
    let mut mark = [0u8; TAG];
    let Some(n) = put_mark(file, s.first, &mut mark) else {
        tell_bytes(report);
        return;
    };
    let w = tell_each(file, part, report, &mark[..n]);
    if whole {
        tell_kept(file, part, &mark[..n], w);
    }
}
