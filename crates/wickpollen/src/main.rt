// The program that people run: wickpollen check RULES, write RULES SHEET, print SHEET, models DTD, try RULES SCHEDULE, convert [--salvage] RULES SCHEDULE LISTING, help. RULES is a
// sheet, or rules as text.
// What is found goes to standard output; the last line of standard error is always "wickpollen: N". A program here has no exit status: where the
// first word is --tell, as from bin/wickpollen, the number is told on a descriptor of its own too, and becomes the exit status there.

#![tactic(auto)]

ghost use Rattle.std.specs.Prelude.{◌≡◌, ◌<◌, IfSome, IfOk};
ghost use Rattle.io.specs.Counts.{IsPrefixLen};

use callers::Caller;
use commands::{FILE, check_file, print_file, print_models, write_file};
use files::STDERR_FILENO;
use manual::{complain, help, usage, version};
use std::env::FillError;
use std::fs::OpenOptions;
use std::io::{Error, IsTerminal};
use std::os::fd::{AsRawFd, IntoRawFd};
use std::rt::Env;

// What becomes of a schedule: it is tried; converted; or converted without the records that are damaged.
#[derive(Clone, Copy)]
enum Way {
    Tries,
    Converts,
    Salvages,
}

// Word i of the command, the program's own name being word 0, and how many bytes of the memory it has. `--tell`, which comes before the others, is not counted.
fn word(rt: HostRuntime, told: bool, i: usize, memory: &mut [u8]) -> Result<usize, FillError>
    requires { i < 9 }
    ensures { IfOk result (λ n. IsPrefixLen n memory.new) }
{
    let at = if told { i + 1 } else { i };
    let n = rt.arg(at, memory)?;
    Ok(files::within(n, memory))
}

// What the system says of a word that is not there, and of one that is too long. Numbers: what users are told is the text of an error that is made from one.
const MISSING: i32 = 22;

const TOO_LONG: i32 = 36;

// Tells on standard error why a word could not be taken.
fn tell_unread(what: &[u8], why: FillError) {
    let number = match why {
        FillError::NotPresent => MISSING,
        FillError::TooLong => TOO_LONG,
    };
    files::fail(what, Error::from_raw_os_error(number));
}

// As `word`, of a word that names something: where it could not be taken, that is told.
fn name_word(rt: HostRuntime, told: bool, i: usize, what: &[u8], memory: &mut [u8]) -> Option<usize>
    requires { i < 9 }
    ensures { IfSome result (λ n. IsPrefixLen n memory.new) }
{
    match word(rt, told, i, memory) {
        Ok(n) => Some(n),
        Err(why) => {
            tell_unread(what, why);
            None
        }
    }
}

// Whether the program was given a word i, its own name being word 0.
fn is_given(rt: HostRuntime, i: usize) -> bool {
    let mut memory = io::buffer();
    match rt.arg(i, &mut memory) {
        Ok(_) => true,
        Err(FillError::TooLong) => true,
        Err(FillError::NotPresent) => false,
    }
}

// Whether the command has n words, its name among them.
fn has_words(rt: HostRuntime, told: bool, n: usize) -> bool
    requires { n < 9 }
{
    let end = if told { n + 1 } else { n };
    !is_given(rt, end) && (end == 0 || is_given(rt, end - 1))
}

// `check`, `print` or `models`, and its one file.
fn run_on_one<F: Fn(HostRuntime, &[u8]) -> u64>(rt: HostRuntime, told: bool, command: F) -> u64
    requires { F.IsAlwaysCallable command }
{
    if !has_words(rt, told, 3) {
        return usage();
    }
    let mut path = io::buffer();
    match name_word(rt, told, 2, b"the name of the file", &mut path) {
        Some(n) => command(rt, &path[..n]),
        None => FILE,
    }
}

// `write`, with the name of its rules.
fn write_into(rt: HostRuntime, rules: &[u8], told: bool) -> u64 {
    let mut sheet = io::buffer();
    let Some(n) = name_word(rt, told, 3, b"SHEET", &mut sheet) else {
        return FILE;
    };
    write_file(rt, rules, &sheet[..n], Caller::this_one(rt, false, told))
}

// `write` and its files.
fn run_write(rt: HostRuntime, told: bool) -> u64 {
    if !has_words(rt, told, 4) {
        return usage();
    }
    let mut rules = io::buffer();
    let Some(n) = name_word(rt, told, 2, b"RULES", &mut rules) else {
        return FILE;
    };
    write_into(rt, &rules[..n], told)
}

// As `name_word`, of word i of a command as it is without --salvage, which comes before the names of the files.
fn file_word(
    rt: HostRuntime,
    told: bool,
    way: Way,
    i: usize,
    what: &[u8],
    memory: &mut [u8],
) -> Option<usize>
    requires { i < 8 }
    ensures { IfSome result (λ n. IsPrefixLen n memory.new) }
{
    match way {
        Way::Salvages => name_word(rt, told, i + 1, what, memory),
        _ => name_word(rt, told, i, what, memory),
    }
}

// `convert`, with the names of its sheet and its schedule.
fn convert_into(rt: HostRuntime, sheet: &[u8], schedule: &[u8], caller: Caller, way: Way) -> u64 {
    let mut listing = io::buffer();
    let Some(n) = file_word(
        rt,
        caller.listener.is_some(),
        way,
        4,
        b"LISTING",
        &mut listing,
    ) else {
        return FILE;
    };
    match way {
        Way::Salvages => commands::salvage_files(rt, sheet, schedule, &listing[..n], caller),
        _ => commands::convert_files(rt, sheet, schedule, &listing[..n], caller),
    }
}

// `convert` or `try`, with the name of its sheet.
fn run_with(rt: HostRuntime, sheet: &[u8], caller: Caller, way: Way) -> u64 {
    let mut schedule = io::buffer();
    let Some(n) = file_word(
        rt,
        caller.listener.is_some(),
        way,
        3,
        b"SCHEDULE",
        &mut schedule,
    ) else {
        return FILE;
    };
    match way {
        Way::Tries => commands::try_files(rt, sheet, &schedule[..n], caller),
        _ => convert_into(rt, sheet, &schedule[..n], caller, way),
    }
}

// `convert` or `try` and its files. Somebody watches where it was asked for, or where standard error is a terminal.
fn run_files(rt: HostRuntime, told: bool, asked: bool, way: Way) -> u64 {
    let mut sheet = io::buffer();
    let Some(n) = file_word(rt, told, way, 2, b"RULES", &mut sheet) else {
        return FILE;
    };
    let watched = asked | rt.stderr().is_terminal();
    run_with(rt, &sheet[..n], Caller::this_one(rt, watched, told), way)
}

// Whether word i is this one.
fn is_word(rt: HostRuntime, told: bool, i: usize, text: &[u8]) -> bool
    requires { i < 9 }
{
    let mut memory = io::buffer();
    match word(rt, told, i, &mut memory) {
        Ok(n) => &memory[..n] == text,
        Err(_) => false,
    }
}

// `convert` or `try`, which have n words, and perhaps --progress behind them.
fn run_conversion(rt: HostRuntime, told: bool, n: usize, way: Way) -> u64
    requires { n < 7 }
{
    if has_words(rt, told, n) {
        return run_files(rt, told, false, way);
    }
    if has_words(rt, told, n + 1) & is_word(rt, told, n, b"--progress") {
        return run_files(rt, told, true, way);
    }
    usage()
}

// `convert`, perhaps with --salvage.
fn run_convert(rt: HostRuntime, told: bool) -> u64 {
    if is_word(rt, told, 2, b"--salvage") {
        return run_conversion(rt, told, 6, Way::Salvages);
    }
    run_conversion(rt, told, 5, Way::Converts)
}

// The commands that name no file.
fn run_other(command: &[u8]) -> u64 {
    match command {
        b"help" | b"--help" => help(),
        b"--version" => version(),
        _ => usage(),
    }
}

fn run_command(rt: HostRuntime, told: bool, command: &[u8]) -> u64 {
    match command {
        b"check" => run_on_one(rt, told, check_file),
        b"print" => run_on_one(rt, told, print_file),
        b"models" => run_on_one(rt, told, print_models),
        b"write" => run_write(rt, told),
        b"try" => run_conversion(rt, told, 4, Way::Tries),
        b"convert" => run_convert(rt, told),
        _ => run_other(command),
    }
}

fn run(rt: HostRuntime, told: bool) -> u64 {
    let mut command = io::buffer();
    match word(rt, told, 1, &mut command) {
        Ok(n) => run_command(rt, told, &command[..n]),
        Err(_) => usage(),
    }
}

// Whether the first word is --tell.
fn is_told(rt: HostRuntime) -> bool {
    is_word(rt, false, 1, b"--tell")
}

// A standard descriptor that is closed would go to the next file that is opened, and a message into that file: the least that is free is
// given to /dev/null if it is one of those.
fn keep_standard(rt: HostRuntime) {
    let mut how = OpenOptions::new();
    how.read(true).write(true);
    if let Ok(file) = how.open(&rt, "/dev/null") {
        if file.as_raw_fd() <= STDERR_FILENO {
            file.into_raw_fd();
        }
    }
}

fn main(rt: HostRuntime) {
    keep_standard(rt);
    keep_standard(rt);
    keep_standard(rt);
    let told = is_told(rt);
    let caller = Caller::this_one(rt, false, told);
    let number = run(rt, told);
    complain(b"wickpollen: ");
    io::print_decimal(STDERR_FILENO, number);
    complain(b"\n");
    caller.hears_number(number);
}
