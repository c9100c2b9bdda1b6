// A file of declarations printed as rules, and what is said of it. The rules go to standard output, and nothing else does.

#![tactic(auto)]

mod names;
mod told;

use files::within;
use std::io::{Result, Write, writer};
use told::complain;

// A file could not be read or written: a number that the paper's table has not.
const FILE: u64 = 102;

// Checks the rules, and says what is to be mended.
fn judge(path: &[u8], text: &[u8], sheet: &[u8]) -> u64 {
    let mut list = io::large_buffer();
    let r = faults::check(sheet, &mut list);
    told::tell_verdict(path, text, r.number, &list, r.count);
    r.number as u64
}

// Writes a text to standard output.
fn put_out(rt: HostRuntime, text: &[u8]) -> Result<()> {
    writer(&rt).write_all(text)
}

// Prints a sheet of declarations, which is a sheet that has a text, by way of memory that is lent.
fn print_through(rt: HostRuntime, sheet: &[u8], text: &mut [u8]) -> u64 {
    let p = prints::print(sheet, text);
    if p.number > 0 {
        return p.number as u64;
    }
    let n = within(p.count, text);
    match put_out(rt, &text[..n]) {
        Ok(()) => 0,
        Err(why) => {
            files::fail(b"standard output", why);
            FILE
        }
    }
}

fn print_rules(rt: HostRuntime, sheet: &[u8]) -> u64 {
    let mut text = io::large_buffer();
    print_through(rt, sheet, &mut text)
}

// The declarations of a text, printed as rules.
fn print_text(rt: HostRuntime, path: &[u8], text: &[u8], sheet: &mut [u8]) -> u64 {
    let d = dtds::declare(text, sheet);
    if d.number > 0 {
        refusals::refuse(path, text, d.number, d.count);
        return d.number as u64;
    }
    let n = within(d.count, sheet);
    let number = print_rules(rt, &sheet[..n]);
    if number > 0 {
        return number;
    }
    judge(path, text, &sheet[..n])
}

// Prints the declarations of a file as rules, says what there is to say of them, and answers the number of the table. The file is read into lent memory, which must
// have room for a byte more.
pub fn print_models(rt: HostRuntime, path: &[u8], memory: &mut [u8]) -> u64 {
    let whole = files::read_whole(rt, path, memory);
    if whole.failed {
        return FILE;
    }
    let n = whole.held;
    if n == memory.len() {
        complain(path);
        complain(b": this is too long for declarations: at most 262144 bytes are read.\n");
        return FILE;
    }
    let mut sheet = io::buffer();
    print_text(rt, path, &memory[..n], &mut sheet)
}
