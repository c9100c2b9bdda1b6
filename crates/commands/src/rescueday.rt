// Converting a schedule file into a listing file, without the records that are damaged. As in every conversion the listing takes its place only when the schedule
// was read to its end; what was dropped is told then.
mod run;
mod settling;

use crate::listings::begin;
use callers::Caller;
use files::Opened;
use run::{REPORT, run_fresh};
use settling::{settle, tell_dropped};
use standing::{is_refused, top_up};

// From a schedule that is open into a new file that is open.
fn salvage_open(
    rt: HostRuntime,
    sheet: &[u8],
    sheet_path: &[u8],
    schedule: &[u8],
    from: &mut Opened,
    listing: &[u8],
    to: &mut Opened,
    name: &[u8],
    caller: Caller,
) -> u64 {
    let mut part = io::large_buffer();
    let mut report = [0u8; REPORT];
    let r = run_fresh(rt, sheet, from, to, &mut part, &mut report, caller);
    let s = r.standing;
    let held = top_up(from, &mut part, s.held, is_refused(s));
    let used = files::within(r.used, &report);
    let number = settle(
        rt,
        sheet,
        sheet_path,
        schedule,
        listing,
        from,
        to,
        name,
        caller,
        s,
        &part[..held],
        &report[..used],
    );
    tell_dropped(from, &report[..used], number)
}

// Converts the file at schedule by the sheet at sheet_path into a file at listing, without the records that are damaged, says what came of it, and answers the
// number of the table, FILE, or DAMAGED where the listing is in place and something was dropped.
pub fn salvage_files(
    rt: HostRuntime,
    sheet_path: &[u8],
    schedule: &[u8],
    listing: &[u8],
    caller: Caller,
) -> u64 {
    let mut sheet = io::large_buffer();
    let mut name = io::buffer();
    let begun = begin(
        rt, sheet_path, schedule, listing, &mut sheet, &mut name, caller,
    );
    let mut b = match begun {
        Ok(b) => b,
        Err(number) => return number,
    };
    let n = files::within(b.length, &sheet);
    let m = files::within(b.name, &name);
    salvage_open(
        rt,
        &sheet[..n],
        sheet_path,
        schedule,
        &mut b.from,
        listing,
        &mut b.to,
        &name[..m],
        caller,
    )
}
