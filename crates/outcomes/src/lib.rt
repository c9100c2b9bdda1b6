// What people are told of a conversion: how much was done, or what was refused, where, and inside which open elements.

#![tactic(auto)]

ghost use Rattle.std.specs.Prelude.{◌≡◌, ◌≤◌, length};

use behind::{Lines, Tail};
use places::{Place, say_count, say_line_before, say_mark, say_place, uncut};
use rejecting::{Rejecter, find_rejecter};
use standing::Standing;
use state::State;
use std::num::wrapping_add_usize;
use words::say;

// The most bytes that are shown of what was refused: as many as a token may have.
const SHOWN: usize = 32;

// The line before a place, by the last bytes before it, of which there are so many at the memory's end.
fn say_tail(memory: &[u8], length: usize) -> usize {
    let kept = files::within(length, memory);
    let from = memory.len() - kept;
    say_line_before(&memory[from..])
}

// The line up to the place, the first bytes of what is left of the schedule, and a mark where they start.
fn say_front(tail: Tail, bytes: &[u8]) {
    if bytes.len() == 0 {
        say(b"The file ends there.\n");
        return;
    }
    say(b"What stands there is marked:\n");
    let before = tail.bytes;
    let column = say_tail(&before, tail.length);
    let n = uncut(bytes, SHOWN);
    explain::say_shown(&bytes[0..n]);
    if n < bytes.len() {
        say(b" ..");
    }
    say(b"\n");
    say_mark(column);
}

// The productions of the open elements, from the outside in.
fn productions_of(z: State) -> [u8; State::DEPTH]
    ensures { 32 ≡ length result }
{
    let mut productions = [0u8; State::DEPTH];
    for (i, frame) in z.frames.iter().enumerate() {
        productions[i] = frame.production;
    }
    productions
}

fn say_open_elements(sheet: &[u8], z: State, lines: Lines) {
    let productions = productions_of(z);
    let depth = files::within(z.depth, &productions);
    let top = z.top();
    let began = lines.lines;
    whereabouts::say_open(sheet, &productions[..depth], &began, top.place as usize);
}

// Whether something else has to come: instead of what is no token, of an end tag that is another's, of what may not come, of an end that comes too early.
fn is_misplaced(number: usize) -> bool {
    matches!(number, 20..=23 | 27)
}

// What may come instead, in the innermost open element.
fn say_instead(sheet: &[u8], number: usize, z: State) {
    if z.depth == 0 {
        return;
    }
    if !is_misplaced(number) {
        return;
    }
    let top = z.top();
    comes::say_may_come(sheet, top.production as usize, top.place as usize);
}

// Whether some bytes start with a byte order mark.
fn is_marked(bytes: &[u8]) -> bool {
    bytes.starts_with(b"\xEF\xBB\xBF")
}

// A byte order mark is a character like any other, and comes before the root.
fn say_of_mark(place: Place, left: &[u8]) {
    if (place.offset == 0) & is_marked(left) {
        say(
            b"The file starts with a byte order mark, the three bytes EF BB BF, which schedules do not have: save it as UTF-8 without one.\n",
        );
    }
}

// What stands there instead of a token.
fn say_of_front(number: usize, left: &[u8]) {
    if number == 20 {
        explain::say_what_stands(left);
    }
}

// A token's output that the whole room does not hold: what the table's words for hosts leave open.
pub fn say_of_room(number: usize) {
    if number == 17 {
        say(
            b"Here the room is 65536 bytes, and all of it was free: the sheet prints more than that at one token. Let it print less there.\n",
        );
    }
}

// Which program rejected what is left of the schedule, from the refused token on: the state is the one before it.
fn say_of_program(sheet: &[u8], number: usize, z: State, left: &[u8]) {
    if number != 25 {
        return;
    }
    let rejecter = find_rejecter(sheet, z, left);
    match rejecter {
        Rejecter::Node {
            production,
            node,
            again,
        } => whereabouts::say_rejected(sheet, production, node, again),
        Rejecter::Element { production, again } => {
            whereabouts::say_rejected(sheet, production, 0, again)
        }
        Rejecter::Nobody => (),
    }
}

// The number that a file was refused with.
pub fn tell_number(path: &[u8], number: usize) {
    say(path);
    say(b": number ");
    say_count(number as u64);
    say(b".\n");
    words::say_meaning(number);
    say(b"\n");
}

// Where a schedule was refused, with the bytes left from there on.
pub fn tell_place(s: Standing, left: &[u8]) {
    let behind = s.behind;
    let tail = behind.tail;
    say_place(s.place);
    say_front(tail, left);
}

// A schedule that was refused, with the bytes left from the refused token on.
pub fn tell_refusal(sheet: &[u8], schedule: &[u8], s: Standing, left: &[u8]) {
    let number = s.number;
    let place = s.place;
    let state = s.state;
    let behind = s.behind;
    let lines = behind.lines;
    tell_number(schedule, number);
    say_of_room(number);
    say_of_program(sheet, number, state, left);
    tell_place(s, left);
    say_of_mark(place, left);
    say_of_front(number, left);
    say_open_elements(sheet, state, lines);
    say_instead(sheet, number, state);
}

// How much was done.
fn say_counts(written: &[u8], s: Standing) {
    let place = s.place;
    let state = s.state;
    say(b"Bytes read: ");
    say_count(place.offset);
    say(written);
    say_count(s.written);
    say(b". Visits: ");
    say_count(state.count);
    say(b".\n");
}

// A schedule that was converted.
pub fn tell_done(schedule: &[u8], listing: &[u8], s: Standing) {
    say(schedule);
    say(b": converted into ");
    say(listing);
    say(b".\n");
    say_counts(b". Bytes written: ", s);
}

// A schedule that was tried.
pub fn tell_tried(schedule: &[u8], s: Standing) {
    say(schedule);
    say(b": tried; it can be converted, and nothing was written.\n");
    say_counts(b". Bytes of the listing: ", s);
}

// After whatever went wrong.
pub fn tell_untouched(listing: &[u8]) {
    say(b"Nothing was put in place: ");
    say(listing);
    say(b" is as it was.\n");
}
