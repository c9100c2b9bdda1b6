// A schedule from one file converted to another without the records that are damaged, part by part, in memory that is lent.
ghost use Rattle.io.specs.Counts.{IsPrefixLen};

use behind::{Behind, Tail};
use callers::Caller;
use files::Opened;
use rescued::SalvageCounts;
use salvages::salvage_bytes;
use standing::{Standing, end_progress, tell_progress, write_out};
use state::State;
use state::bytes::{from_bytes, to_bytes};
use std::num::{wrapping_add_u64, wrapping_add_usize, wrapping_sub_u64};

// The bytes of a salvage run's state.
const STATE: usize = 4030;

// The most entries of the report that are kept, and their bytes.
pub(crate) const ENTRIES: usize = 2730;

pub(crate) const REPORT: usize = 65520;

// Where a run stands between two calls: as a conversion does, and how many bytes of the report are in use.
#[derive(Clone, Copy)]
pub struct Rescue {
    pub standing: Standing,
    pub used: usize,
}

impl Rescue {
    fn fresh() -> Rescue {
        let standing = Standing::fresh();
        Rescue {
            standing: standing,
            used: 0,
        }
    }

    // With another standing.
    fn with(self, standing: Standing) -> Rescue {
        Rescue {
            standing: standing,
            used: self.used,
        }
    }

    fn goes(self) -> bool {
        let s = self.standing;
        s.going
    }

    // How many bytes were taken.
    fn offset(self) -> u64 {
        let s = self.standing;
        let place = s.place;
        place.offset
    }
}

// The bytes of so many entries.
fn bytes_of(entries: usize) -> usize {
    if entries > ENTRIES {
        return REPORT;
    }
    entries * losses::ENTRY
}

// The line behind some bytes. They need not be whole tokens where a record is passed over: a line feed that they start with may belong to a carriage return, whose
// line was counted.
fn line_behind(behind: Behind, passed: &[u8], line: u64) -> u64 {
    let tail = behind.tail;
    let last = tail.bytes;
    let now = wrapping_add_u64(line, places::line_ends(passed));
    if (last[Tail::MOST - 1] == places::CARRIAGE_RETURN) & (wrong::byte(passed, 0) == b'\n') {
        return wrapping_sub_u64(now, 1);
    }
    now
}

// After a call: if its output was written out, what was taken is passed, and what was not is moved to the front.
fn go_on(part: &mut [u8], held: usize, r: Rescue, c: SalvageCounts, wrote: bool) -> Rescue {
    let s = r.standing;
    if !wrote {
        return r.with(s.stopped(false));
    }
    let taken = files::within(c.taken, part);
    let place = s.place;
    let was = s.behind;
    let line = line_behind(was, &part[..taken], place.line);
    let past = place.after(&part[..taken], line);
    let behind = was.rooted(&part[..taken], place.line);
    let left = files::move_to_front(part, taken, held);
    let moved = (c.written > 0) | (c.reported > 0);
    let next = s.answered(c.number, c.written, moved, past, behind);
    let standing = next.holding(left);
    Rescue {
        standing: standing,
        used: wrapping_add_usize(r.used, bytes_of(c.reported)),
    }
}

// One call on what is held: the output is written out, and the entries are kept behind those that are there.
fn turn_filled(
    sheet: &[u8],
    to: &mut Opened,
    part: &mut [u8],
    held: usize,
    ended: bool,
    waiting: &mut [u8],
    report: &mut [u8],
    state: &mut [u8],
    r: Rescue,
) -> Rescue
    requires { IsPrefixLen held part.old }
{
    let mut out = io::large_buffer();
    let used = files::within(r.used, report);
    let c = salvage_bytes(
        sheet,
        state,
        &part[..held],
        ended,
        &mut out,
        waiting,
        &mut report[used..],
    );
    let written = files::within(c.written, &out);
    let wrote = write_out(to, &out[..written]);
    go_on(part, held, r, c, wrote)
}

// One call, if whoever started it is still there: reads on behind what is held.
fn turn(
    rt: HostRuntime,
    caller: Caller,
    sheet: &[u8],
    from: &mut Opened,
    to: &mut Opened,
    part: &mut [u8],
    waiting: &mut [u8],
    report: &mut [u8],
    state: &mut [u8],
    r: Rescue,
) -> Rescue {
    let s = r.standing;
    if caller.is_gone(rt) {
        return r.with(s.forsaken());
    }
    let filled = files::fill(from, part, s.held);
    if filled.failed {
        return r.with(s.stopped(true));
    }
    turn_filled(
        sheet,
        to,
        part,
        filled.held,
        filled.ended,
        waiting,
        report,
        state,
        r,
    )
}

// Calls until anything but "more is to come" or "the room is full" is answered, or a file fails; the turns are numbered, as in a conversion.
fn run(
    rt: HostRuntime,
    sheet: &[u8],
    from: &mut Opened,
    to: &mut Opened,
    part: &mut [u8],
    waiting: &mut [u8],
    report: &mut [u8],
    state: &mut [u8],
    caller: Caller,
) -> Rescue {
    let mut r = Rescue::fresh();
    for _ in 0..u64::MAX {
        if !r.goes() {
            break;
        }
        let before = r.offset();
        r = turn(rt, caller, sheet, from, to, part, waiting, report, state, r);
        tell_progress(caller.watches, before, r.offset());
    }
    end_progress(caller.watches, r.offset());
    r
}

// A whole run from a fresh state. What is told of the state is that of its conversion.
pub(crate) fn run_fresh(
    rt: HostRuntime,
    sheet: &[u8],
    from: &mut Opened,
    to: &mut Opened,
    part: &mut [u8],
    report: &mut [u8],
    caller: Caller,
) -> Rescue {
    let mut waiting = io::large_buffer();
    let mut state = [0u8; STATE];
    to_bytes(State::fresh(), &mut state);
    let r = run(
        rt,
        sheet,
        from,
        to,
        part,
        &mut waiting,
        report,
        &mut state,
        caller,
    );
    let s = r.standing;
    r.with(s.with_state(from_bytes(&state)))
}
