// Runs the token reader over the fronts of its input, a line of hex digits for each. It writes a line for each: the answer in words with its numbers,
// and for a token what the writer writes of it again, in hex.

#![tactic(auto)]

ghost use Rattle.std.specs.Prelude.{◌+◌, ◌≤◌, length};
ghost use Rattle.text.specs.Chars.{Char};

use cases::{STDOUT_FILENO, digit};
use tokens::{Answer, Cursor, Event};

fn main() {
    let mut input = io::large_buffer();
    let n = io::read_full(0, &mut input);
    let mut front = io::buffer();
    let mut out = io::buffer();
    run(&input[..n], &mut front, &mut out);
}

// Each line of s is a front.
fn run(s: &[u8], front: &mut [u8], out: &mut [u8])
    requires { length front.old ≤ 4096 }
{
    let mut len = 0;
    let mut left = s;
    // A loop: a line's end is one byte and a byte of a front two, so no chunks and no range give the steps.
    loop {
        match left {
            [b'\n', rest @ ..] => {
                show(&front[..len], out);
                len = 0;
                left = rest;
            }
            [high, low, rest @ ..] => {
                if len == front.len() {
                    return;
                }
                front[len] = digit(*high) * 16 + digit(*low);
                len += 1;
                left = rest;
            }
            _ => return,
        }
    }
}

// What stands at the start of s.
fn show(s: &[u8], out: &mut [u8])
    requires { length s.now ≤ 4096 }
{
    let cursor = Cursor { at: 0 };
    let answer = cursor.read(s);
    let Answer::Token(event, next) = answer else {
        refused(answer);
        return;
    };
    let at = next.at;
    match event {
        Event::Start { from, len } => start(s, from, len, at, out),
        Event::End { from, len } => end(s, from, len, at, out),
        Event::Empty { from, len } => empty(s, from, len, at, out),
        Event::Character(c, literal) => character(c, literal, at, out),
    }
}

fn start(s: &[u8], from: usize, len: usize, next: usize, out: &mut [u8])
    requires { (from + len ≤ length s.now) × (length s.now ≤ 4096) }
{
    numbers(b"start", from, len, next);
    let to = from + len;
    let n = output::put_start(out, 0, &s[from..to], true);
    hex(out, n);
}

fn end(s: &[u8], from: usize, len: usize, next: usize, out: &mut [u8])
    requires { (from + len ≤ length s.now) × (length s.now ≤ 4096) }
{
    numbers(b"end", from, len, next);
    let to = from + len;
    let n = output::put_end(out, 0, &s[from..to], true);
    hex(out, n);
}

// An empty tag is a start and an end.
fn empty(s: &[u8], from: usize, len: usize, next: usize, out: &mut [u8])
    requires { (from + len ≤ length s.now) × (length s.now ≤ 4096) }
{
    numbers(b"empty", from, len, next);
    let to = from + len;
    let n = output::put_start(out, 0, &s[from..to], true);
    let m = output::put_end(out, n, &s[from..to], true);
    hex(out, m);
}

fn character(c: u32, literal: bool, next: usize, out: &mut [u8])
    requires { Char c }
{
    stood(c, literal, next);
    let n = output::put_char(out, 0, c, true);
    hex(out, n);
}

// A character, whether it stood there itself, and the next cursor.
fn stood(c: u32, literal: bool, next: usize) {
    io::write_all(STDOUT_FILENO, b"character ");
    io::print_decimal(STDOUT_FILENO, c as u64);
    if literal {
        io::write_all(STDOUT_FILENO, b" itself");
    } else {
        io::write_all(STDOUT_FILENO, b" by reference");
    }
    number(b" next ", next);
}

// An answer that is no token, with the paper's numbers.
fn refused(answer: Answer) {
    match answer {
        Answer::Token(_, _) => {}
        Answer::Waiting(event, next) => waiting(event, next.at),
        Answer::Begun => {
            io::write_all(STDOUT_FILENO, b"begun 16 27\n");
        }
        Answer::Bad => {
            io::write_all(STDOUT_FILENO, b"bad 20\n");
        }
        Answer::Long => {
            io::write_all(STDOUT_FILENO, b"long 21\n");
        }
    }
}

// A token if nothing follows.
fn waiting(event: Event, next: usize) {
    let Event::Character(c, literal) = event else {
        return;
    };
    io::write_all(STDOUT_FILENO, b"waiting 16 or ");
    stood(c, literal, next);
    io::write_all(STDOUT_FILENO, b"\n");
}

// A tag's kind, where its name stands, how long it is, and the next cursor.
fn numbers(kind: &[u8], from: usize, len: usize, next: usize) {
    io::write_all(STDOUT_FILENO, kind);
    number(b" at ", from);
    number(b" long ", len);
    number(b" next ", next);
}

fn number(name: &[u8], n: usize) {
    io::write_all(STDOUT_FILENO, name);
    io::print_decimal(STDOUT_FILENO, n as u64);
}

// The first n bytes of what was written, and the line's end.
fn hex(out: &[u8], n: usize) {
    io::write_all(STDOUT_FILENO, b" writes ");
    if out.len() < n {
        return;
    }
    for b in &out[..n] {
        io::print_hex(STDOUT_FILENO, u64::from(*b), 2);
    }
    io::write_all(STDOUT_FILENO, b"\n");
}
