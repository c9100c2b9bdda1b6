// How a run ends: the new file takes the listing's place, or is taken away; and what is told then.
use crate::rulebooks::FILE;
use callers::Caller;
use files::Opened;
use outcomes::{say_of_room, tell_number, tell_place, tell_untouched};
use standing::{Standing, is_refused};
use std::num::wrapping_add_u64;
use words::say;

// The listing is in place, and something was dropped: a number that the paper's table has not.
const DAMAGED: u64 = 103;

// Some room is full.
const FULL: usize = 17;

// The schedule ends too early.
const EARLY: usize = 27;

// The sheet is not of the shape.
const SHAPE: usize = 34;

// Whether the schedule ends in what was dropped last.
fn ends_dropped(s: Standing, report: &[u8]) -> bool {
    let place = s.place;
    (s.number == EARLY)
        & (report.len() > 0)
        & (losses::end_of_last(report) == wrapping_add_u64(place.offset, s.held as u64))
}

// Whether the token that is left first is one of a record: inside one, or its start tag, which the root's end tag is not.
fn is_in_record(s: Standing, left: &[u8]) -> bool {
    let state = s.state;
    (state.depth > 1) | ((state.depth == 1) & (wrong::byte(left, 1) != b'/'))
}

// Which room is full: that of the report, that of the output, or the one in which a record waits.
fn say_full(s: Standing, left: &[u8], report: &[u8]) {
    if s.number != FULL {
        return;
    }
    if report.len() >= super::run::REPORT {
        say(
            b"Here at most 2730 stretches can be dropped, and more of this schedule is damaged. Fetch it again.\n",
        );
        return;
    }
    if !is_in_record(s, left) {
        say_of_room(FULL);
        return;
    }
    say(
        b"Here a programme waits until its end tag was taken, and 65536 bytes of its listing can wait: this one has more. Convert without --salvage, or let the sheet print less.\n",
    );
}

// A refusal that a conversion has not, or of which it would tell less or other things.
fn tell_own(sheet_path: &[u8], schedule: &[u8], s: Standing, left: &[u8], report: &[u8]) {
    if s.number == SHAPE {
        tell_number(sheet_path, SHAPE);
        return;
    }
    tell_number(schedule, s.number);
    say_full(s, left, report);
    tell_place(s, left);
}

// Whether a number is one of those.
fn is_own(s: Standing, report: &[u8]) -> bool {
    (s.number == SHAPE) | (s.number == FULL) | ends_dropped(s, report)
}

// Ends a run.
pub(crate) fn settle(
    rt: HostRuntime,
    sheet: &[u8],
    sheet_path: &[u8],
    schedule: &[u8],
    listing: &[u8],
    from: &Opened,
    to: &mut Opened,
    name: &[u8],
    caller: Caller,
    s: Standing,
    left: &[u8],
    report: &[u8],
) -> u64 {
    if is_refused(s) & is_own(s, report) & !caller.is_gone(rt) {
        files::take_away(rt, to, name);
        tell_own(sheet_path, schedule, s, left, report);
        tell_untouched(listing);
        return s.number as u64;
    }
    crate::listings::settle(
        rt, sheet, schedule, listing, from, to, name, caller, s, left,
    )
}

// Tells what was dropped, by reading the schedule again, and answers the number.
pub(crate) fn tell_dropped(from: &mut Opened, report: &[u8], number: u64) -> u64 {
    if (number == FILE) | (report.len() == 0) {
        return number;
    }
    let mut part = io::large_buffer();
    losses::tell_losses(from, &mut part, report, number == 0);
    if number > 0 {
        return number;
    }
    say(b"The listing is in place, without what was dropped.\n");
    DAMAGED
}
