// A schedule read again: its lines are counted, and the records' start tags.
ghost use Rattle.std.specs.Prelude.{◌≡◌, ◌<◌, ◌≤◌, [], ◌∷◌, length, IfSome};
ghost use Rattle.io.specs.Counts.{IsPrefixLen};
ghost use Rattle.behind.specs.Lines.{line_on};
ghost use Rattle.losses.specs.Walks.{next_line, HasRead, ReadsOn};

use files::Opened;
use std::num::wrapping_add_u64;

// Where the second reading is: how many bytes were passed, the line, the line of the last byte that is no white space, whether the last byte was a carriage
// return, how many bytes of a record's start tag were passed, how many such tags were, and whether all that was to be passed was there.
// A flag, and no Option: a reading that fell short is gone on with, and what it counted is told.
#[derive(Clone, Copy)]
pub struct Walk {
    pub offset: u64,
    pub line: u64,
    pub solid: u64,
    pub returned: bool,
    pub matched: usize,
    pub kept: u64,
    pub there: bool,
}

const LINE_FEED: u8 = 10;

// How many bytes of a mark were passed, after one more byte: a mark has < at its start alone.
fn matched_after(mark: &[u8], matched: usize, b: u8) -> usize {
    if matched < mark.len() {
        if mark[matched] == b {
            return matched + 1;
        }
    }
    if b == b'<' {
        return 1;
    }
    0
}

// Whether a byte ends a tag's name.
fn ends_name(b: u8) -> bool {
    text::blank(b) | (b == b'/') | (b == b'>')
}

// A number, or the next one.
fn plus(n: u64, one: bool) -> u64
    ensures { result ≡ line_on one n }
{
    if one {
        return wrapping_add_u64(n, 1);
    }
    n
}

impl Walk {
    // Before the first byte.
    pub fn start() -> Walk
        ensures { HasRead [] result }
    {
        Walk {
            offset: 0,
            line: 1,
            solid: 1,
            returned: false,
            matched: 0,
            kept: 0,
            there: true,
        }
    }

    // The line of the next byte, which is no line feed. A line ends with LF, CR LF or CR.
    pub fn next_line(self) -> u64
        ensures { result ≡ next_line self }
    {
        plus(self.line, self.returned)
    }

    // Past one byte.
    fn past(self, b: u8, mark: &[u8]) -> Walk
        ensures { ReadsOn self (b ∷ []) result }
    {
        let feeds = b == LINE_FEED;
        let here = plus(self.line, self.returned & !feeds);
        let whole = self.matched == mark.len();
        Walk {
            offset: wrapping_add_u64(self.offset, 1),
            line: plus(here, feeds),
            solid: if text::blank(b) { self.solid } else { here },
            returned: b == places::CARRIAGE_RETURN,
            matched: matched_after(mark, self.matched, b),
            kept: plus(self.kept, whole & ends_name(b)),
            there: self.there,
        }
    }

    // Not all was there.
    fn short(self) -> Walk {
        let mut w = self;
        w.there = false;
        w
    }

    // Past a stretch: no tag in it counts.
    fn dropping(self, kept: u64) -> Walk {
        let mut w = self;
        w.kept = kept;
        w.matched = 0;
        w
    }
}

fn through(bytes: &[u8], mark: &[u8], from: Walk) -> Walk
    ensures { ReadsOn from bytes.now result }
{
    let mut w = from;
    for b in bytes {
        w = w.past(*b, mark);
    }
    w
}

// A number of bytes, or as many as the memory has.
fn at_most(n: u64, memory: &[u8]) -> usize
    ensures upper_bound { result ≤ n }
    ensures prefix_len { IsPrefixLen result memory.now }
{
    files::within(n as usize, memory)
}

// Reads so many bytes, as far as there are and the memory has room for them, and answers how many.
pub(crate) fn read_some(file: &mut Opened, part: &mut [u8], n: u64) -> usize
    ensures upper_bound { result ≤ n }
    ensures prefix_len { IsPrefixLen result part.new }
{
    let want = at_most(n, part);
    let filled = files::fill(file, &mut part[..want], 0);
    files::within(filled.held, part)
}

// Passes so many bytes, or all that there are.
pub(crate) fn pass(file: &mut Opened, part: &mut [u8], n: u64, mark: &[u8], from: Walk) -> Walk {
    let mut w = from;
    let mut left = n;
    // A while: each step passes as many bytes as could be read, which no range gives.
    while left > 0 {
        let held = read_some(file, part, left);
        if held == 0 {
            return w.short();
        }
        w = through(&part[..held], mark, w);
        left -= held as u64;
    }
    w
}

// Passes a stretch of so many bytes, of which some are held.
pub(crate) fn pass_stretch(
    file: &mut Opened,
    part: &mut [u8],
    held: usize,
    size: u64,
    from: Walk,
) -> Walk
    requires prefix_len { IsPrefixLen held part.old }
    requires held_le_size { held ≤ size }
{
    let begun = through(&part[..held], b"", from);
    let w = pass(file, part, size - held as u64, b"", begun);
    w.dropping(from.kept)
}

// How many bytes of a tag that some bytes begin with are its < and its name.
fn name_end(tag: &[u8]) -> usize {
    1 + tag
        .iter()
        .skip(1)
        .take_while(|b| text::name_byte(**b))
        .count()
}

// The furthest that a file is read again from.
const FURTHEST: u64 = 4611686018427387904;

// Puts < and the name of the tag that stands behind so many bytes of a file into the memory, and goes back to the file's start. Answers how many bytes they
// are; none where the file cannot be read again.
pub(crate) fn put_mark(file: &mut Opened, at: u64, mark: &mut [u8]) -> Option<usize>
    ensures { IfSome result (λ n. IsPrefixLen n mark.new) }
{
    if at > FURTHEST {
        return None;
    }
    let n = file.read_from(mark, at);
    if !file.go_back() {
        return None;
    }
    Some(files::within(name_end(&mark[..n]), mark))
}
