// The files of a conversion: how they are begun, and how they are settled. A listing is written to a new file beside it, which takes its name only when the whole
// schedule was taken: a refusal, a full disk or a killed process leaves the listing that was there.
use crate::rulebooks::{FILE, load_passing};
use callers::Caller;
use files::Opened;
use outcomes::{tell_done, tell_refusal, tell_untouched};
use standing::{Standing, is_broken};

// Says which file failed, and why.
pub(crate) fn tell_broken(
    schedule: &[u8],
    from: &Opened,
    listing: &[u8],
    to: &Opened,
    s: Standing,
) {
    if s.unread {
        from.fail(schedule);
    }
    if s.unwritten {
        to.fail(listing);
    }
}

// Ends a run: the new file takes the listing's place, or is taken away, and then the reason is told.
pub(crate) fn settle(
    rt: HostRuntime,
    sheet: &[u8],
    schedule: &[u8],
    listing: &[u8],
    from: &Opened,
    to: &mut Opened,
    name: &[u8],
    caller: Caller,
    s: Standing,
    left: &[u8],
) -> u64 {
    if is_broken(s) | caller.is_gone(rt) {
        files::take_away(rt, to, name);
        tell_broken(schedule, from, listing, to, s);
        tell_untouched(listing);
        return FILE;
    }
    if s.number > 0 {
        files::take_away(rt, to, name);
        tell_refusal(sheet, schedule, s, left);
        tell_untouched(listing);
        return s.number as u64;
    }
    if !files::put_in_place(rt, to, name, listing) {
        tell_untouched(listing);
        return FILE;
    }
    tell_done(schedule, listing, s);
    0
}

// The files of a conversion: how long the sheet is, the schedule that is open, the new file that is open and how long its name is. Where a conversion came to an end
// before it began, the number that was told stands in its place.
#[derive(Drop)]
pub struct Begun {
    pub length: usize,
    pub from: Opened,
    pub to: Opened,
    pub name: usize,
}

// Makes the new file beside the listing, and puts its name into the memory.
fn begin_listing(
    rt: HostRuntime,
    listing: &[u8],
    name: &mut [u8],
    from: Opened,
    length: usize,
    caller: Caller,
) -> Result<Begun, u64> {
    let made = match files::new_beside(rt, listing, name) {
        Ok(made) => made,
        Err(why) => {
            files::fail(listing, why);
            tell_untouched(listing);
            return Err(FILE);
        }
    };
    let n = made.length;
    let mut to = made.file;
    if !caller.hears_of(&name[..n]) {
        files::take_away(rt, &mut to, &name[..n]);
        return Err(FILE);
    }
    Ok(Begun {
        length: length,
        from: from,
        to: to,
        name: n,
    })
}

// Reads the rules at sheet_path into the memory as a sheet, opens the schedule, and makes the new file beside the listing.
pub(crate) fn begin(
    rt: HostRuntime,
    sheet_path: &[u8],
    schedule: &[u8],
    listing: &[u8],
    sheet: &mut [u8],
    name: &mut [u8],
    caller: Caller,
) -> Result<Begun, u64> {
    let length = match load_passing(rt, sheet_path, sheet) {
        Ok(length) => length,
        Err(number) => {
            tell_untouched(listing);
            return Err(number);
        }
    };
    let from = files::open(rt, schedule);
    if !from.is_open() {
        from.fail(schedule);
        return Err(FILE);
    }
    begin_listing(rt, listing, name, from, length, caller)
}

// Puts some bytes in place as a file at path, as a listing is: from a new file beside it, whole or not at all.
pub(crate) fn put_file(rt: HostRuntime, path: &[u8], bytes: &[u8], caller: Caller) -> bool {
    let mut name = io::buffer();
    let made = match files::new_beside(rt, path, &mut name) {
        Ok(made) => made,
        Err(why) => {
            files::fail(path, why);
            return false;
        }
    };
    let n = made.length;
    let mut to = made.file;
    let written = caller.hears_of(&name[..n]) && to.write(bytes);
    if !written | caller.is_gone(rt) {
        files::take_away(rt, &mut to, &name[..n]);
        to.fail(path);
        return false;
    }
    files::put_in_place(rt, &mut to, &name[..n], path)
}
