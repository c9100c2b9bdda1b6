// Runs the cases that are a line each, and writes a line for each: sheets checked (sheets.txt), texts of rules written and sheets printed (texts.txt), and declarations
// read as a partner station sends them (partners.txt).
// A case is a line in hexadecimal: the bytes of memory to lend, a space, and the bytes of the sheet or the text; in texts.txt 0 for a text to be written or 1 for a sheet
// to be printed, and a space, stand before them.
// The answer is a line: the case's number, the number, the count that goes with it, what was written, and whether every byte past it is as lent. What was written is told
// of faults by their entries, else by a mark of the bytes.
ghost use Rattle.std.specs.Prelude.{◌+◌, ◌≤◌, ◌<◌, length};
ghost use Rattle.io.specs.Counts.{IsPrefixLen};

use crate::{LENT, each_line};
use cases::{Read, STDOUT_FILENO, fill, is_kept, mark, one_more, read_bytes, read_number};
use dtds::Declared;
use faults::Checked;
use files::within;
use prints::Printed;
use writer::Written;

// What is asked of every case of a file.
#[derive(Clone, Copy)]
pub enum Asked {
    Check,
    Translate,
    Declare,
}

// The number, and the count that goes with it.
#[derive(Clone, Copy)]
struct Told {
    number: usize,
    count: usize,
}

impl From<Checked> for Told {
    fn from(c: Checked) -> Told {
        Told {
            number: usize::from(c.number),
            count: c.count,
        }
    }
}

impl From<Printed> for Told {
    fn from(p: Printed) -> Told {
        Told {
            number: usize::from(p.number),
            count: p.count,
        }
    }
}

impl From<Written> for Told {
    fn from(w: Written) -> Told {
        Told {
            number: w.number,
            count: w.count,
        }
    }
}

impl From<Declared> for Told {
    fn from(d: Declared) -> Told {
        Told {
            number: d.number,
            count: d.count,
        }
    }
}

// Writes a text as a sheet, or prints a sheet as text.
fn translate(prints: bool, given: &[u8], memory: &mut [u8]) -> Told {
    if prints {
        return Told::from(prints::print(given, memory));
    }
    Told::from(writer::write(given, memory))
}

fn run(asked: Asked, prints: bool, given: &[u8], memory: &mut [u8]) -> Told {
    match asked {
        Asked::Check => Told::from(faults::check(given, memory)),
        Asked::Translate => translate(prints, given, memory),
        Asked::Declare => Told::from(dtds::declare(given, memory)),
    }
}

// Writes the entries, of four bytes each, and answers where they end.
fn print_entries(list: &[u8], count: usize) -> usize {
    let end = 4 * count.min(list.len() / 4);
    for entry in list[..end].chunks_exact(4) {
        let number = u32::from_be_bytes([entry[0], entry[1], entry[2], entry[3]]);
        io::write_all(STDOUT_FILENO, b" ");
        io::print_hex(STDOUT_FILENO, u64::from(number), 8);
    }
    end
}

// Only with 8 and 9 are there entries in the list.
fn entries(told: Told) -> usize {
    match told.number {
        8 | 9 => told.count,
        _ => 0,
    }
}

// Writes the mark of the bytes that 0 came with, and answers where they end.
fn print_mark(told: Told, memory: &[u8]) -> usize {
    let n = if told.number == 0 { told.count } else { 0 };
    let written = within(n, memory);
    io::write_all(STDOUT_FILENO, b" ");
    io::print_hex(STDOUT_FILENO, mark(0, &memory[..written]), 8);
    written
}

// Tells what was written, and answers where it ends.
fn print_written(asked: Asked, told: Told, memory: &[u8]) -> usize {
    match asked {
        Asked::Check => print_entries(memory, entries(told)),
        _ => print_mark(told, memory),
    }
}

fn print_answer(case: u64, asked: Asked, told: Told, memory: &[u8]) {
    io::print_decimal(STDOUT_FILENO, case);
    io::write_all(STDOUT_FILENO, b": ");
    io::print_decimal(STDOUT_FILENO, told.number as u64);
    io::write_all(STDOUT_FILENO, b" ");
    io::print_decimal(STDOUT_FILENO, told.count as u64);
    let end = print_written(asked, told, memory);
    if is_kept(memory, end, LENT) {
        io::write_all(STDOUT_FILENO, b" kept\n");
    } else {
        io::write_all(STDOUT_FILENO, b" spoiled\n");
    }
}

fn run_case(case: u64, asked: Asked, prints: bool, given: &[u8], memory: &mut [u8]) {
    fill(memory, LENT);
    let told = run(asked, prints, given, memory);
    print_answer(case, asked, told, memory);
}

// The number before a case's own, which only lines of texts.txt have.
fn read_before(asked: Asked, line: &[u8]) -> Read {
    match asked {
        Asked::Translate => read_number(line, 0),
        _ => Read { value: 0, next: 0 },
    }
}

// Runs the case that a line is.
fn run_line(case: u64, asked: Asked, line: &[u8]) {
    let mut given = io::large_buffer();
    let mut memory = io::large_buffer();
    let before = read_before(asked, line);
    let lent = read_number(line, before.next);
    let room = within(lent.value as usize, &memory);
    let n = within(read_bytes(line, lent.next, &mut given, 0), &given);
    run_case(
        case,
        asked,
        before.value == 1,
        &given[..n],
        &mut memory[..room],
    );
}

pub fn run_all(fd: i32, asked: Asked) {
    let mut case = 0;
    each_line(fd, |line| {
        case = one_more(case);
        run_line(case, asked, line);
    });
}
