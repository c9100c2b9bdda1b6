// Reports on the example sheets in data/, and on the texts there with sheets of the same rules, as `wickpollen check` does; then converts the example
// schedules, each over yesterday's listing, as `wickpollen convert` does, and shows the listing afterwards.

#![tactic(auto)]

use words::say;

// What is found of a sheet, whose places are told in a text where it has one.
fn tell_rules(path: &[u8], sheet: &[u8], text: &[u8]) {
    report::report(path, sheet, text);
    say(b"\n");
}

fn tell_sheet(rt: HostRuntime, path: &[u8]) {
    let mut sheet = io::large_buffer();
    let whole = files::read_whole(rt, path, &mut sheet);
    let n = whole.held;
    tell_rules(path, &sheet[..n], b"");
}

fn tell_text(rt: HostRuntime, path: &[u8], sheet_path: &[u8]) {
    let mut sheet = io::large_buffer();
    let mut text = io::large_buffer();
    let whole = files::read_whole(rt, sheet_path, &mut sheet);
    let typed = files::read_whole(rt, path, &mut text);
    let n = whole.held;
    let m = typed.held;
    tell_rules(path, &sheet[..n], &text[..m]);
}

fn report_all(rt: HostRuntime) {
    tell_sheet(rt, b"schedule.sheet");
    tell_sheet(rt, b"faults.sheet");
    tell_sheet(rt, b"places.sheet");
    tell_text(rt, b"faults.rules", b"faults.sheet");
    tell_text(rt, b"places.rules", b"places.sheet");
    tell_text(rt, b"signs.rules", b"signs.sheet");
    tell_text(rt, b"missing.rules", b"missing.sheet");
}

// A listing that was there before.
fn put_yesterday(rt: HostRuntime) {
    let mut listing = files::overwrite(rt, b"listing");
    if !listing.is_open() {
        listing.fail(b"listing");
        return;
    }
    listing.write(b"<schedule>yesterday's listing</schedule>");
}

fn show_listing(rt: HostRuntime) {
    let mut listing = io::large_buffer();
    let whole = files::read_whole(rt, b"listing", &mut listing);
    let n = whole.held;
    say(&listing[..n]);
    say(b"\n\n");
}

fn tell(rt: HostRuntime, sheet: &[u8], schedule: &[u8]) {
    put_yesterday(rt);
    commands::convert_files(rt, sheet, schedule, b"listing", callers::Caller::nobody());
    show_listing(rt);
}

// The same without the records that are damaged, as `wickpollen convert --salvage` does.
fn tell_salvaged(rt: HostRuntime, sheet: &[u8], schedule: &[u8]) {
    put_yesterday(rt);
    let number = commands::salvage_files(
        rt,
        sheet,
        schedule,
        b"listing",
        callers::Caller::nobody(),
    );
    say(b"Number ");
    words::say_number(number as usize);
    say(b".\n");
    show_listing(rt);
}

fn convert_all(rt: HostRuntime) {
    tell(rt, b"programmes.sheet", b"quiz.schedule");
    tell(rt, b"programmes.sheet", b"nothing.schedule");
    tell(rt, b"programmes.sheet", b"half.schedule");
    tell(rt, b"programmes.sheet", b"damaged.schedule");
    tell(rt, b"programmes.sheet", b"twice.schedule");
    tell(rt, b"programmes.sheet", b"after.schedule");
    tell(rt, b"faults.sheet", b"quiz.schedule");
}

fn salvage_all(rt: HostRuntime) {
    tell_salvaged(rt, b"programmes.sheet", b"quiz.schedule");
    tell_salvaged(rt, b"programmes.sheet", b"damaged.schedule");
    tell_salvaged(rt, b"programmes.sheet", b"evening.schedule");
    tell_salvaged(rt, b"programmes.sheet", b"half.schedule");
    tell_salvaged(rt, b"programmes.sheet", b"between.schedule");
    tell_salvaged(rt, b"schedule.sheet", b"quiz.schedule");
}

fn main(rt: HostRuntime) {
    report_all(rt);
    convert_all(rt);
    salvage_all(rt);
}
