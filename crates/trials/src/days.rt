// Runs the salvage run on the calls of days.txt, and writes a line for each. tests/salvage.py makes the file and says what its lines are: a letter, a space, and
// fields of hexadecimal digits.
// The answer is a line: the call from 1, the number, the bytes taken and written, the entries of the report, the most bytes that waited, the visits, and a mark of the output, the report,
// the area for what waits and the state, each to its last byte.
ghost use Rattle.std.specs.Prelude.{◌≡◌, ◌≤◌, ◌<◌, length};
ghost use Rattle.io.specs.Counts.{IsPrefixLen};

use crate::{LENT, each_line};
use cases::{STDOUT_FILENO, change, fill, letter, mark, one_more, read_bytes, read_number};
use files::within;
use rescued::SalvageCounts;
use salvages::{salvage_bytes, salvage_fresh};

// How many bytes the sheet, the state and the area for what waits have now; and the calls so far.
#[derive(Clone, Copy)]
struct Progress {
    sheet: usize,
    state: usize,
    waiting: usize,
    calls: u64,
}

// A call's line: how many bytes are lent for the output and for the report, whether the stream ends with the part, and where in the line the part begins.
#[derive(Clone, Copy)]
struct Call {
    room: usize,
    report: usize,
    ended: bool,
    part: usize,
}

fn read_call(line: &[u8]) -> Call {
    let room = read_number(line, 2);
    let report = read_number(line, room.next);
    let ended = read_number(line, report.next);
    Call {
        room: room.value as usize,
        report: report.value as usize,
        ended: ended.value != 0,
        part: ended.next,
    }
}

fn print_count(n: u64) {
    io::write_all(STDOUT_FILENO, b" ");
    io::print_decimal(STDOUT_FILENO, n);
}

// The line of a call, with the mark of what it left.
fn print_answer(call: u64, r: SalvageCounts, left: u64) {
    io::print_decimal(STDOUT_FILENO, call);
    io::write_all(STDOUT_FILENO, b":");
    print_count(r.number as u64);
    print_count(r.taken as u64);
    print_count(r.written as u64);
    print_count(r.reported as u64);
    print_count(r.waited as u64);
    print_count(r.visits);
    io::write_all(STDOUT_FILENO, b" ");
    io::print_hex(STDOUT_FILENO, left, 8);
    io::write_all(STDOUT_FILENO, b"\n");
}

// Makes a call, and writes its line.
fn run_call(
    call: u64,
    sheet: &[u8],
    state: &mut [u8],
    part: &[u8],
    ended: bool,
    out: &mut [u8],
    waiting: &mut [u8],
    report: &mut [u8],
) {
    let r = salvage_bytes(sheet, state, part, ended, out, waiting, report);
    let written = mark(mark(0, out), report);
    print_answer(call, r, mark(mark(written, waiting), state));
}

// Runs the call that a line is, on the state and the area that the lines before it have left.
fn run_case(line: &[u8], call: u64, sheet: &[u8], state: &mut [u8], waiting: &mut [u8]) {
    let mut part = io::buffer();
    let mut out = io::buffer();
    let mut report = io::buffer();
    fill(&mut out, LENT);
    fill(&mut report, LENT);
    let c = read_call(line);
    let n = within(read_bytes(line, c.part, &mut part, 0), &part);
    let room = within(c.room, &out);
    let entries = within(c.report, &report);
    run_call(
        call,
        sheet,
        state,
        &part[..n],
        c.ended,
        &mut out[..room],
        waiting,
        &mut report[..entries],
    );
}

// The same, of the bytes that the sheet, the state and the area have now; the call is counted.
fn run_next_call(
    line: &[u8],
    p: Progress,
    sheet: &[u8],
    state: &mut [u8],
    waiting: &mut [u8],
) -> Progress {
    let mut next = p;
    next.calls = one_more(p.calls);
    let s = within(p.sheet, sheet);
    let z = within(p.state, state);
    let w = within(p.waiting, waiting);
    run_case(
        line,
        next.calls,
        &sheet[..s],
        &mut state[..z],
        &mut waiting[..w],
    );
    next
}

// The bytes of a fresh state, and zeros behind them.
fn fresh(state: &mut [u8]) {
    fill(state, 0);
    salvage_fresh(state);
}

// Does what a line asks for.
fn run_line(
    line: &[u8],
    p: Progress,
    sheet: &mut [u8],
    state: &mut [u8],
    waiting: &mut [u8],
) -> Progress {
    let mut next = p;
    match letter(line) {
        b's' => {
            next.sheet = read_bytes(line, 2, sheet, 0);
            next
        }
        b'z' => {
            fresh(state);
            next.state = read_number(line, 2).value as usize;
            next
        }
        b'p' => {
            change(line, state);
            next
        }
        b'a' => {
            fill(waiting, LENT);
            next.waiting = read_number(line, 2).value as usize;
            next
        }
        _ => run_next_call(line, p, sheet, state, waiting),
    }
}

// Runs the lines of the file one after another.
fn run_lines(fd: i32, sheet: &mut [u8], state: &mut [u8], waiting: &mut [u8]) {
    let mut p = Progress {
        sheet: 0,
        state: 0,
        waiting: 0,
        calls: 0,
    };
    each_line(fd, |line| p = run_line(line, p, sheet, state, waiting));
}

pub fn run_all(fd: i32) {
    let mut sheet = io::large_buffer();
    let mut state = io::buffer();
    let mut waiting = io::buffer();
    run_lines(fd, &mut sheet, &mut state, &mut waiting);
}
