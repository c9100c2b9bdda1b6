// A schedule from one file converted to another, part by part, in memory that is lent: so much of the schedule, so much output.
ghost use Rattle.io.specs.Counts.{IsPrefixLen};

use callers::Caller;
use converter::{Reply, convert};
use files::Opened;
use standing::{Standing, end_progress, tell_progress, write_out};

// After a call whose output was written out: what was taken is passed, and what was not is moved to the front.
fn go_on(part: &mut [u8], held: usize, s: Standing, r: Reply) -> Standing {
    let taken = files::within(r.taken, part);
    let place = s.place;
    let was = s.behind;
    let passed = was.lines_after(&part[..taken], place.line);
    let past = place.after(&part[..taken], passed.line);
    let behind = was.after(&part[..taken], passed.lines);
    let left = files::move_to_front(part, taken, held);
    let next = s.answered(r.number, r.written, r.written > 0, past, behind);
    let after = next.holding(left);
    let state = r.state;
    after.with_state(state)
}

// One call of the converter on what is held: converts, writes the output out, and moves what was not taken to the front. That is a begun token as a
// rule, and more only where the room was too short for the output of all.
fn turn_filled(
    sheet: &[u8],
    to: &mut Opened,
    part: &mut [u8],
    held: usize,
    ended: bool,
    out: &mut [u8],
    s: Standing,
) -> Standing
    requires { IsPrefixLen held part.old }
{
    let state = s.state;
    let r = convert(sheet, state, &part[..held], ended, out);
    let written = files::within(r.written, out);
    if !write_out(to, &out[..written]) {
        return s.stopped(false);
    }
    go_on(part, held, s, r)
}

// One call of the converter: reads on behind what is held, and converts that.
fn turn(
    sheet: &[u8],
    from: &mut Opened,
    to: &mut Opened,
    part: &mut [u8],
    out: &mut [u8],
    s: Standing,
) -> Standing {
    let filled = files::fill(from, part, s.held);
    if filled.failed {
        return s.stopped(true);
    }
    turn_filled(sheet, to, part, filled.held, filled.ended, out, s)
}

// One call of the converter, if whoever started it is still there.
fn turn_for(
    rt: HostRuntime,
    caller: Caller,
    sheet: &[u8],
    from: &mut Opened,
    to: &mut Opened,
    part: &mut [u8],
    out: &mut [u8],
    s: Standing,
) -> Standing {
    if caller.is_gone(rt) {
        return s.forsaken();
    }
    turn(sheet, from, to, part, out, s)
}

// Converts until the converter answers anything but "more is to come" or "the room is full", or a file fails. A proved loop has to end, and
// nothing says that a file does: so the turns are numbered up to one that no run comes to.
pub(crate) fn run(
    rt: HostRuntime,
    sheet: &[u8],
    from: &mut Opened,
    to: &mut Opened,
    part: &mut [u8],
    out: &mut [u8],
    caller: Caller,
) -> Standing {
    let mut s = Standing::fresh();
    for _ in 0..u64::MAX {
        if !s.going {
            break;
        }
        let before = s.place;
        s = turn_for(rt, caller, sheet, from, to, part, out, s);
        let after = s.place;
        tell_progress(caller.watches, before.offset, after.offset);
    }
    let last = s.place;
    end_progress(caller.watches, last.offset);
    s
}
