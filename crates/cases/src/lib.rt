// What the programs of the tests share: the lines of a file of cases, the numbers and bytes in them, and memory that is lent.

#![tactic(auto)]

ghost use Rattle.std.specs.Prelude.{◌≡◌, ◌≤◌, ◌<◌, length, drop};
ghost use Rattle.io.specs.Counts.{IsPrefixLen};
ghost use Rattle.tells.specs.Tells.{Tells};
ghost use Rattle.cases.specs.Kept.{AllAre};

// Standard output, as io numbers it.
pub const STDOUT_FILENO: i32 = 1;

// A number that was read, and where the line goes on.
#[derive(Clone, Copy)]
pub struct Read {
    pub value: u64,
    pub next: usize,
}

// A digit's value; 0 of any other byte.
pub fn digit(b: u8) -> u8
    ensures { result < 16 }
{
    match b {
        b'0'..=b'9' => b - b'0',
        b'a'..=b'f' => b - b'a' + 10,
        _ => 0,
    }
}

// A digit more, of a number that stays within its type.
fn longer(value: u64, b: u8) -> u64 {
    if value >= 0x1000000000000000 {
        return value;
    }
    16 * value + u64::from(digit(b))
}

// The number from a byte on, up to a space or the line's end.
pub fn read_number(line: &[u8], at: usize) -> Read {
    let mut value = 0;
    for i in at..line.len() {
        if line[i] == b' ' {
            return Read {
                value: value,
                next: i + 1,
            };
        }
        value = longer(value, line[i]);
    }
    Read {
        value: value,
        next: at.max(line.len()),
    }
}

// The bytes from one on to the line's end, two digits each, stored from a place on; answers where they end.
pub fn read_bytes(line: &[u8], at: usize, memory: &mut [u8], to: usize) -> usize {
    let mut n = to;
    for pair in line[at.min(line.len())..].chunks_exact(2) {
        if n >= memory.len() {
            return n;
        }
        memory[n] = 16 * digit(pair[0]) + digit(pair[1]);
        n += 1;
    }
    n
}

// Makes every byte the one that is lent.
pub fn fill(memory: &mut [u8], b: u8)
    ensures { AllAre b memory.new }
{
    memory.fill(b);
}

// Whether every byte from one on is as lent.
pub fn is_kept(memory: &[u8], from: usize, lent: u8) -> bool
    ensures { Tells (AllAre lent (drop from memory.now)) result }
{
    memory.iter().skip(from).all(|b| *b == lent)
}

// Marks stay below this.
const MARKS: u64 = 4294967296;

// A mark by which bytes are told apart, carried on from that of the bytes before them.
pub fn mark(before: u64, bytes: &[u8]) -> u64
    ensures { result < 4294967296 }
{
    let mut m = before % MARKS;
    for b in bytes {
        m = (31 * m + u64::from(*b) + 1) % MARKS;
    }
    m
}

// None where there is none left.
fn next_byte(fd: i32) -> Option<u8> {
    let mut one = [0u8; 1];
    let n = io::read_full(fd, &mut one);
    if n == 0 {
        return None;
    }
    Some(one[0])
}

// Reads up to the line's end, and answers how many bytes the line has; none where the file ends.
pub fn read_line(fd: i32, line: &mut [u8]) -> usize
    ensures { IsPrefixLen result line.new }
{
    for n in 0..line.len() {
        match next_byte(fd) {
            None | Some(b'\n') => return n,
            Some(b) => line[n] = b,
        }
    }
    line.len()
}

// What a line asks for: its first byte, 0 where it has none.
pub fn letter(line: &[u8]) -> u8 {
    line.first().copied().unwrap_or(0)
}

// Stores the bytes that a line gives, from the place that it gives on.
pub fn change(line: &[u8], memory: &mut [u8]) {
    let at = read_number(line, 2);
    read_bytes(line, at.next, memory, at.value as usize);
}

// One more, of a count that stays within its type.
pub fn one_more(n: u64) -> u64 {
    n.saturating_add(1)
}
