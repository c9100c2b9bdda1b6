// Converting a schedule file into a listing file, part by part; or into none, to say what would come of it.
mod run;

use crate::listings::{begin, settle, tell_broken};
use crate::rulebooks::{FILE, load_passing};
use callers::Caller;
use files::Opened;
use outcomes::{tell_refusal, tell_tried};
use run::run;
use standing::{is_broken, is_refused, top_up};

// From a schedule that is open into a new file that is open.
fn convert_open(
    rt: HostRuntime,
    sheet: &[u8],
    schedule: &[u8],
    from: &mut Opened,
    listing: &[u8],
    to: &mut Opened,
    name: &[u8],
    caller: Caller,
) -> u64 {
    let mut part = io::large_buffer();
    let mut out = io::large_buffer();
    let s = run(rt, sheet, from, to, &mut part, &mut out, caller);
    let held = top_up(from, &mut part, s.held, is_refused(s));
    settle(
        rt,
        sheet,
        schedule,
        listing,
        from,
        to,
        name,
        caller,
        s,
        &part[..held],
    )
}

// Converts the file at schedule by the rules at sheet_path into a file at listing, says what came of it, and answers the number of the
// table, or FILE.
pub fn convert_files(
    rt: HostRuntime,
    sheet_path: &[u8],
    schedule: &[u8],
    listing: &[u8],
    caller: Caller,
) -> u64 {
    let mut sheet = io::large_buffer();
    let mut name = io::buffer();
    let begun = begin(
        rt, sheet_path, schedule, listing, &mut sheet, &mut name, caller,
    );
    let mut b = match begun {
        Ok(b) => b,
        Err(number) => return number,
    };
    let n = files::within(b.length, &sheet);
    let m = files::within(b.name, &name);
    convert_open(
        rt,
        &sheet[..n],
        schedule,
        &mut b.from,
        listing,
        &mut b.to,
        &name[..m],
        caller,
    )
}

// A schedule that is open, converted into nothing.
fn try_open(
    rt: HostRuntime,
    sheet: &[u8],
    schedule: &[u8],
    from: &mut Opened,
    caller: Caller,
) -> u64 {
    let mut part = io::large_buffer();
    let mut out = io::large_buffer();
    let mut to = Opened::nothing();
    let s = run(rt, sheet, from, &mut to, &mut part, &mut out, caller);
    let held = top_up(from, &mut part, s.held, is_refused(s));
    if is_broken(s) {
        tell_broken(schedule, from, schedule, &to, s);
        return FILE;
    }
    if s.number > 0 {
        tell_refusal(sheet, schedule, s, &part[..held]);
        return s.number as u64;
    }
    tell_tried(schedule, s);
    0
}

// Says what convert_files would say of the same sheet and schedule, answers the same number, and writes no file.
pub fn try_files(rt: HostRuntime, sheet_path: &[u8], schedule: &[u8], caller: Caller) -> u64 {
    let mut sheet = io::large_buffer();
    let length = match load_passing(rt, sheet_path, &mut sheet) {
        Ok(length) => length,
        Err(number) => return number,
    };
    let n = files::within(length, &sheet);
    let mut from = files::open(rt, schedule);
    if !from.is_open() {
        from.fail(schedule);
        return FILE;
    }
    try_open(rt, &sheet[..n], schedule, &mut from, caller)
}
