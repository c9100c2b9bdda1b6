// What is done with a file of rules, or of declarations: it is checked; written as a sheet; printed as text; printed as the rules that its declarations are.
use crate::listings::put_file;
use crate::rulebooks::{FILE, LONGEST, check, load, memory};
use callers::Caller;
use manual::complain;
use std::io::{Result, Write, writer};
use words::say;

pub fn check_file(rt: HostRuntime, path: &[u8]) -> u64 {
    let mut bytes = memory();
    let mut sheet = io::large_buffer();
    match check(rt, path, &mut bytes, &mut sheet) {
        Ok(_) => 0,
        Err(number) => number,
    }
}

// Puts a sheet in place, and says so.
fn put_sheet(rt: HostRuntime, path: &[u8], sheet: &[u8], caller: Caller) -> u64 {
    if !put_file(rt, path, sheet, caller) {
        return FILE;
    }
    say(path);
    say(b": written.\n");
    0
}

// Writes the rules of a file as a sheet, if they pass: the very bytes that were checked, since a pipe can be read only once and a file may change.
pub fn write_file(rt: HostRuntime, path: &[u8], to: &[u8], caller: Caller) -> u64 {
    let mut bytes = memory();
    let mut sheet = io::large_buffer();
    match check(rt, path, &mut bytes, &mut sheet) {
        Ok(length) => {
            let n = files::within(length, &sheet);
            put_sheet(rt, to, &sheet[..n], caller)
        }
        Err(number) => number,
    }
}

// Says on standard error why a sheet was not printed.
fn refuse_print(path: &[u8], number: u64) -> u64 {
    complain(path);
    match number {
        42 => complain(
            b": the different strings that this sheet prints have over 8192 bytes together, so it has no text.\n",
        ),
        43 => complain(b": the text of this sheet is longer than 262144 bytes.\n"),
        _ => complain(b": this is no whole sheet; wickpollen check says where it is wrong.\n"),
    }
    number
}

// Writes a text to standard output.
fn put_out(rt: HostRuntime, text: &[u8]) -> Result<()> {
    writer(&rt).write_all(text)
}

// Prints a sheet as text, by way of memory that is lent: nothing else goes to standard output. No more is printed than is read again.
fn print_through(rt: HostRuntime, path: &[u8], sheet: &[u8], text: &mut [u8]) -> u64 {
    let room = files::within(LONGEST, text);
    let p = prints::print(sheet, &mut text[..room]);
    if p.number > 0 {
        return refuse_print(path, u64::from(p.number));
    }
    let n = files::within(p.count, text);
    match put_out(rt, &text[..n]) {
        Ok(()) => 0,
        Err(why) => {
            files::fail(b"standard output", why);
            FILE
        }
    }
}

fn print_sheet(rt: HostRuntime, path: &[u8], sheet: &[u8]) -> u64 {
    let mut text = memory();
    print_through(rt, path, sheet, &mut text)
}

pub fn print_file(rt: HostRuntime, path: &[u8]) -> u64 {
    let mut sheet = io::large_buffer();
    match load(rt, path, &mut sheet) {
        Ok(length) => {
            let n = files::within(length, &sheet);
            print_sheet(rt, path, &sheet[..n])
        }
        Err(number) => number,
    }
}

// Prints the declarations of a file as rules.
pub fn print_models(rt: HostRuntime, path: &[u8]) -> u64 {
    let mut bytes = memory();
    modelling::print_models(rt, path, &mut bytes)
}
