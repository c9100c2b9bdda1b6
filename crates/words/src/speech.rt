// Text on standard output, or on another descriptor.

// Standard output and standard error, as io numbers them.
pub const STDOUT_FILENO: i32 = 1;

pub const STDERR_FILENO: i32 = 2;

pub fn tell(fd: i32, text: &[u8]) {
    io::write_all(fd, text);
}

pub fn tell_number(fd: i32, n: usize) {
    io::print_decimal(fd, n as u64);
}

pub fn say(text: &[u8]) {
    tell(STDOUT_FILENO, text);
}

pub fn say_number(n: usize) {
    tell_number(STDOUT_FILENO, n);
}

// 1st, 2nd, 3rd, 4th ..; an expression has at most 32 atoms.
pub fn say_ordinal(n: usize) {
    say_number(n);
    match n {
        1 | 21 | 31 => say(b"st"),
        2 | 22 | 32 => say(b"nd"),
        3 | 23 => say(b"rd"),
        _ => say(b"th"),
    }
}
