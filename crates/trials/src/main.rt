// Runs the cases of the tests, part after part, each from its own file in data/; before what a part writes stands a line with its name. The parts are one program since
// each reaches much of the code below, which is loaded anew for every crate that does.

#![tactic(auto)]

mod days;
mod singles;
mod streams;

use cases::{STDOUT_FILENO, read_line};
use singles::Asked;
use std::fs::File;
use std::os::fd::AsRawFd;

// What every byte of a lent area is before it is lent.
const LENT: u8 = 0xAA;

// What the lines of a part are: a case each, calls of the converter, or calls of the salvage run.
#[derive(Clone, Copy)]
enum Lines {
    Singles(Asked),
    Streams,
    Days,
}

// Runs what is lent on the lines of a file, one after another, up to its end or to a line with nothing in it.
fn each_line<F: FnMut(&[u8])>(fd: i32, mut run: F)
    requires { F.IsAlwaysCallable run }
{
    let mut line = io::large_buffer();
    // A proved loop has to end, and nothing says that a file does: no file has so many lines.
    for _ in 0..u64::MAX {
        let n = read_line(fd, &mut line);
        if n == 0 {
            return;
        }
        run(&line[..n]);
    }
}

fn run_part(rt: HostRuntime, name: &[u8], file: &str, lines: Lines) {
    io::write_all(STDOUT_FILENO, name);
    let opened = match File::open(&rt, file) {
        Ok(opened) => opened,
        Err(why) => {
            files::fail(file.as_bytes(), why);
            return;
        }
    };
    let fd = opened.as_raw_fd();
    match lines {
        Lines::Singles(asked) => singles::run_all(fd, asked),
        Lines::Streams => streams::run_all(fd),
        Lines::Days => days::run_all(fd),
    }
}

fn main(rt: HostRuntime) {
    run_part(rt, b"sheets\n", "sheets.txt", Lines::Singles(Asked::Check));
    run_part(rt, b"streams\n", "streams.txt", Lines::Streams);
    run_part(
        rt,
        b"texts\n",
        "texts.txt",
        Lines::Singles(Asked::Translate),
    );
    run_part(
        rt,
        b"partners\n",
        "partners.txt",
        Lines::Singles(Asked::Declare),
    );
    run_part(rt, b"days\n", "days.txt", Lines::Days);
}
