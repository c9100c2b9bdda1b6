// Runs the converter on the calls of streams.txt, compares what each answers and leaves with what it must, and writes a line for each
// group of calls. tests/streams.py makes the file and says what its lines are: a letter, a space, and fields of hexadecimal digits.
// A call that differs has a line of its own, with each number as it is and as it must be.
ghost use Rattle.std.specs.Prelude.{◌≡◌, ◌≤◌, ◌<◌, length};
ghost use Rattle.io.specs.Counts.{IsPrefixLen};

use crate::{LENT, each_line};
use cases::{STDOUT_FILENO, change, fill, is_kept, letter, one_more, read_bytes, read_number};
use converter::{Counts, convert_bytes};
use files::within;
use state::State;

// The length of a state's bytes, where in them the flag "root closed" and the closing number stand, and the closing number of an open state.
const STATE: usize = State::BYTES;

const ROOTED: usize = State::ROOTED_AT;

const CLOSING: usize = State::CLOSED_AT;

const OPEN: u8 = State::OPEN;

// How many of a state's bytes a call's line gives; its flag is this where it tells nothing.
const HEAD: usize = State::HEAD;

const ANY: u8 = 2;

// How many bytes the sheet, the stream, the wanted output and the state have now; the calls so far, those of this group, and how many of these
// were answered as they must be.
#[derive(Clone, Copy)]
struct Progress {
    sheet: usize,
    stream: usize,
    wanted: usize,
    state: usize,
    calls: u64,
    group: u64,
    agreed: u64,
}

// What a call answers, and has to.
#[derive(Clone, Copy, PartialEq)]
struct Answer {
    number: u64,
    taken: u64,
    written: u64,
    visits: u64,
}

impl From<Counts> for Answer {
    fn from(c: Counts) -> Answer {
        Answer {
            number: c.number as u64,
            taken: c.taken as u64,
            written: c.written as u64,
            visits: c.visits,
        }
    }
}

// A call's line: the part's place, whether it is the last, the room; what must be answered, where in the wanted output its bytes begin, and
// where in the line the state's first bytes do.
#[derive(Clone, Copy)]
struct Call {
    from: usize,
    to: usize,
    ended: bool,
    room: usize,
    must: Answer,
    output: usize,
    head: usize,
}

// The bytes of a fresh state: zeros, and the closing number of an open one.
fn fresh(state: &mut [u8]) {
    fill(state, 0);
    if CLOSING < state.len() {
        state[CLOSING] = OPEN;
    }
}

// Copies as many bytes as both have.
fn copy(from: &[u8], to: &mut [u8]) {
    let n = from.len().min(to.len());
    to[..n].copy_from_slice(&from[..n]);
}

// Whether the first n bytes are those of the other memory from a place on.
fn is_same(memory: &[u8], n: usize, other: &[u8], at: usize) -> bool {
    n <= memory.len() && other[at.min(other.len())..].starts_with(&memory[..n])
}

// The fields of a call's line.
fn read_call(line: &[u8]) -> Call {
    let from = read_number(line, 2);
    let to = read_number(line, from.next);
    let ended = read_number(line, to.next);
    let room = read_number(line, ended.next);
    let number = read_number(line, room.next);
    let taken = read_number(line, number.next);
    let output = read_number(line, taken.next);
    let written = read_number(line, output.next);
    let visits = read_number(line, written.next);
    let must = Answer {
        number: number.value,
        taken: taken.value,
        written: written.value,
        visits: visits.value,
    };
    Call {
        from: from.value as usize,
        to: to.value as usize,
        ended: ended.value != 0,
        room: room.value as usize,
        must: must,
        output: output.value as usize,
        head: visits.next,
    }
}

// Whether the state's first bytes are these, but for a flag that tells nothing.
fn is_head(state: &[u8], head: &[u8]) -> bool {
    for (i, b) in head.iter().enumerate() {
        if i >= state.len() {
            return false;
        }
        let any = i == ROOTED && *b == ANY;
        if state[i] != *b && !any {
            return false;
        }
    }
    true
}

// Whether the state's first bytes are those that the line gives; with none given, whether all its bytes are as they were.
fn is_state(line: &[u8], at: usize, state: &[u8], before: &[u8]) -> bool {
    if at >= line.len() {
        return before.starts_with(state);
    }
    let mut head = [0u8; HEAD];
    let n = read_bytes(line, at, &mut head, 0);
    n == HEAD && state.len() == STATE && is_head(state, &head)
}

fn print_two(name: &[u8], is: u64, must: u64) {
    io::write_all(STDOUT_FILENO, name);
    io::print_decimal(STDOUT_FILENO, is);
    io::write_all(STDOUT_FILENO, b" for ");
    io::print_decimal(STDOUT_FILENO, must);
}

fn print_whether(name: &[u8], right: bool) {
    io::write_all(STDOUT_FILENO, name);
    if right {
        io::write_all(STDOUT_FILENO, b"right");
    } else {
        io::write_all(STDOUT_FILENO, b"wrong");
    }
}

// The line of a call that differs.
fn print_difference(call: u64, is: Answer, must: Answer, output: bool, state: bool) {
    io::write_all(STDOUT_FILENO, b"call ");
    io::print_decimal(STDOUT_FILENO, call);
    print_two(b": number ", is.number, must.number);
    print_two(b", taken ", is.taken, must.taken);
    print_two(b", written ", is.written, must.written);
    print_two(b", visits ", is.visits, must.visits);
    print_whether(b", output ", output);
    print_whether(b", state ", state);
    io::write_all(STDOUT_FILENO, b"\n");
}

// Whether the output is what it must be, and every byte past it as lent.
fn is_output(out: &[u8], n: usize, wanted: &[u8], at: usize) -> bool {
    is_same(out, n, wanted, at) && is_kept(out, n, LENT)
}

// What a call answered, and whether the output is right.
#[derive(Clone, Copy)]
struct Outcome {
    is: Answer,
    output: bool,
}

// Lends the converter the part, the state and the output.
fn convert(
    c: Call,
    sheet: &[u8],
    part: &[u8],
    wanted: &[u8],
    state: &mut [u8],
    out: &mut [u8],
) -> Outcome {
    fill(out, LENT);
    let r = convert_bytes(sheet, state, part, c.ended, out);
    Outcome {
        is: Answer::from(r),
        output: is_output(out, r.written, wanted, c.output),
    }
}

// Whether all is as it must be; a call that differs gets its line.
fn judge(call: u64, is: Answer, must: Answer, output: bool, state: bool) -> bool {
    if is == must && output && state {
        return true;
    }
    print_difference(call, is, must, output, state);
    false
}

// Runs the call that a line is, and answers whether it did what it must.
fn run_call(
    call: u64,
    line: &[u8],
    sheet: &[u8],
    stream: &[u8],
    wanted: &[u8],
    state: &mut [u8],
) -> bool {
    let mut before = io::buffer();
    let mut out = io::large_buffer();
    let c = read_call(line);
    let to = within(c.to, stream);
    let from = c.from.min(to);
    let room = within(c.room, &out);
    copy(state, &mut before);
    let done = convert(c, sheet, &stream[from..to], wanted, state, &mut out[..room]);
    let is = done.is;
    let must = c.must;
    let stands = is_state(line, c.head, state, &before);
    judge(call, is, must, done.output, stands)
}

// Counts a call that was run.
fn counted(p: Progress, right: bool) -> Progress {
    let mut next = p;
    next.calls = one_more(p.calls);
    next.group = one_more(p.group);
    if right {
        next.agreed = one_more(p.agreed);
    }
    next
}

// The end of a group: its name, and how many of its calls were answered as they must be.
fn end_group(line: &[u8], p: Progress) -> Progress {
    let from = within(2, line);
    io::write_all(STDOUT_FILENO, &line[from..]);
    io::write_all(STDOUT_FILENO, b": ");
    io::print_decimal(STDOUT_FILENO, p.agreed);
    io::write_all(STDOUT_FILENO, b" of ");
    io::print_decimal(STDOUT_FILENO, p.group);
    io::write_all(STDOUT_FILENO, b" calls agree\n");
    let mut next = p;
    next.group = 0;
    next.agreed = 0;
    next
}

// Runs the call that a line is, on what the lines before it gave, and counts it.
fn run_case(
    line: &[u8],
    p: Progress,
    sheet: &[u8],
    stream: &[u8],
    wanted: &[u8],
    state: &mut [u8],
) -> Progress {
    let s = within(p.sheet, sheet);
    let t = within(p.stream, stream);
    let w = within(p.wanted, wanted);
    let z = within(p.state, state);
    let call = one_more(p.calls);
    let right = run_call(
        call,
        line,
        &sheet[..s],
        &stream[..t],
        &wanted[..w],
        &mut state[..z],
    );
    counted(p, right)
}

// Does what a line asks for.
fn run_line(
    line: &[u8],
    p: Progress,
    sheet: &mut [u8],
    stream: &mut [u8],
    wanted: &mut [u8],
    state: &mut [u8],
) -> Progress {
    let mut next = p;
    match letter(line) {
        b's' => {
            next.sheet = read_bytes(line, 2, sheet, 0);
            next
        }
        b't' => {
            next.stream = read_bytes(line, 2, stream, 0);
            next
        }
        b'o' => {
            next.wanted = read_bytes(line, 2, wanted, 0);
            next
        }
        b'z' => {
            fresh(state);
            next.state = read_number(line, 2).value as usize;
            next
        }
        b'p' => {
            change(line, state);
            next
        }
        b'g' => end_group(line, p),
        _ => run_case(line, p, sheet, stream, wanted, state),
    }
}

// Runs the lines of the file one after another, and answers how many calls they had.
fn run_lines(
    fd: i32,
    sheet: &mut [u8],
    stream: &mut [u8],
    wanted: &mut [u8],
    state: &mut [u8],
) -> u64 {
    let mut p = Progress {
        sheet: 0,
        stream: 0,
        wanted: 0,
        state: 0,
        calls: 0,
        group: 0,
        agreed: 0,
    };
    each_line(fd, |line| {
        p = run_line(line, p, sheet, stream, wanted, state)
    });
    p.calls
}

pub fn run_all(fd: i32) {
    let mut sheet = io::large_buffer();
    let mut stream = io::large_buffer();
    let mut wanted = io::large_buffer();
    let mut state = io::buffer();
    let calls = run_lines(fd, &mut sheet, &mut stream, &mut wanted, &mut state);
    io::print_decimal(STDOUT_FILENO, calls);
    io::write_all(STDOUT_FILENO, b" calls in all\n");
}
