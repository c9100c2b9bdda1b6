// What is kept of the bytes that were passed: the last of them, and on which lines the open elements began.

#![tactic(auto)]

ghost use Rattle.std.specs.Prelude.{◌≡◌, ◌<◌, ◌≤◌, min, ◌++◌, length, drop};
ghost use Rattle.behind.specs.Tails.{most_kept, from_end, no_tail, tail_after};
ghost use Rattle.behind.specs.Tags.{is_empty_tag, is_end_tag, tag_kind};
ghost use Rattle.behind.specs.Lines.{no_lines, Noted, NextTag, lines_passing, root_line};
ghost use Rattle.behind.specs.Behinds.{nothing_behind, behind_after, behind_rooted};

use places::{CARRIAGE_RETURN, ends_line};
use state::State;
use std::num::wrapping_add_u64;

// The last bytes that were passed: so many at the array's end.
#[derive(Clone, Copy)]
pub struct Tail {
    pub length: usize,
    pub bytes: [u8; Tail::MOST],
}

// A number of bytes, or as many as are kept where that is less.
fn at_most_kept(n: usize) -> usize
    ensures { result ≡ min n most_kept }
{
    if n < Tail::MOST { n } else { Tail::MOST }
}

impl Tail {
    // One more than are shown of a line: it tells whether something of the line is left out.
    pub const MOST: usize = 49;

    fn none() -> Tail
        ensures { result ≡ no_tail }
    {
        Tail {
            length: 0,
            bytes: [0; Tail::MOST],
        }
    }

    // The j-th byte from the end of what was passed, this and then some bytes more.
    fn from_end(self, passed: &[u8], j: usize) -> u8
        requires { j < most_kept }
        ensures { result ≡ from_end (self.bytes ++ passed.now) j }
    {
        let n = passed.len();
        if j < n {
            return passed[n - 1 - j];
        }
        let bytes = self.bytes;
        bytes[Tail::MOST - 1 - (j - n)]
    }

    // After some bytes more. Each count is cut before the two are added, so that no sum is too large.
    fn after(self, passed: &[u8]) -> Tail
        ensures { result ≡ tail_after self passed.now }
    {
        let mut bytes = [0u8; Tail::MOST];
        for j in 0..Tail::MOST {
            bytes[Tail::MOST - 1 - j] = self.from_end(passed, j);
        }
        Tail {
            length: at_most_kept(at_most_kept(self.length) + at_most_kept(passed.len())),
            bytes: bytes,
        }
    }
}

// The lines on which the open elements began, from the outside in.
#[derive(Clone, Copy)]
pub struct Lines {
    pub depth: usize,
    pub lines: [u64; State::DEPTH],
}

// Whether the tag that starts at a byte is an empty one, with a slash before its end.
fn is_empty_tag(bytes: &[u8], from: usize) -> bool
    ensures { result ≡ is_empty_tag (drop from bytes.now) }
{
    let mut last = 0;
    for i in from..bytes.len() {
        let b = bytes[i];
        if b == b'>' {
            return last == b'/';
        }
        last = b;
    }
    false
}

// Whether a slash stands behind a byte.
fn is_end_tag(bytes: &[u8], i: usize) -> bool
    ensures { result ≡ is_end_tag (drop i bytes.now) }
{
    if i < bytes.len() {
        return wrong::byte(bytes, i + 1) == b'/';
    }
    false
}

// What a tag does to the elements that are open.
const OPENS: u8 = 1;

const CLOSES: u8 = 2;

const NEITHER: u8 = 0;

// What the tag that starts at a byte does; where the bytes end there is none.
fn kind_of_tag(bytes: &[u8], i: usize) -> u8
    ensures { result ≡ tag_kind (drop i bytes.now) }
{
    if wrong::byte(bytes, i) != b'<' {
        return NEITHER;
    }
    if is_empty_tag(bytes, i) {
        return NEITHER;
    }
    if is_end_tag(bytes, i) {
        return CLOSES;
    }
    OPENS
}

// Where the next tag starts, or the bytes end, and on which line.
#[derive(Clone, Copy)]
struct TagAt {
    at: usize,
    line: u64,
}

fn to_tag(bytes: &[u8], from: usize, line: u64) -> TagAt
    requires { from ≤ length bytes.now }
    ensures { NextTag bytes.now from line result }
{
    let mut here = line;
    for i in from..bytes.len() {
        let b = bytes[i];
        if b == b'<' {
            return TagAt { at: i, line: here };
        }
        if b <= CARRIAGE_RETURN {
            if ends_line(bytes, i) {
                here = wrapping_add_u64(here, 1);
            }
        }
    }
    TagAt {
        at: bytes.len(),
        line: here,
    }
}

// Past a tag of a kind: an element that it opens began on that line. Answers how many are open then; no more than there is room for ever are.
fn note(lines: &mut [u64], depth: usize, kind: u8, line: u64) -> usize
    ensures { Noted depth lines.old kind line result lines.new }
{
    if kind == CLOSES {
        if 0 < depth {
            return depth - 1;
        }
        return 0;
    }
    if kind == OPENS {
        if depth < lines.len() {
            lines[depth] = line;
            return depth + 1;
        }
    }
    depth
}

impl Lines {
    fn none() -> Lines
        ensures { result ≡ no_lines }
    {
        Lines {
            depth: 0,
            lines: [0; State::DEPTH],
        }
    }

    // After some bytes more, which start on a line: the root is the element of the first tag.
    fn root_after(self, passed: &[u8], line: u64) -> Lines
        ensures { result ≡ root_line self passed.now line }
    {
        let tag = to_tag(passed, 0, line);
        if (self.depth > 0) | (tag.at == passed.len()) {
            return self;
        }
        let mut lines = self.lines;
        lines[0] = tag.line;
        Lines {
            depth: 1,
            lines: lines,
        }
    }

    // After some bytes more, which are whole tokens and start on a line: a tag starts with each <
    fn after(self, passed: &[u8], line: u64) -> Passed
        ensures { result ≡ lines_passing self passed.now line }
    {
        let mut lines = self.lines;
        let mut depth = self.depth;
        let mut here = line;
        let mut i = 0;
        // A while: each step goes on behind the tag that it found, which no range gives.
        while i < passed.len() {
            let tag = to_tag(passed, i, here);
            here = tag.line;
            depth = note(&mut lines, depth, kind_of_tag(passed, tag.at), here);
            i = tag.at + 1;
        }
        Passed {
            line: here,
            lines: Lines {
                depth: depth,
                lines: lines,
            },
        }
    }
}

// The line behind some bytes, and the lines of the elements that are open there.
#[derive(Clone, Copy)]
pub struct Passed {
    pub line: u64,
    pub lines: Lines,
}

#[derive(Clone, Copy)]
pub struct Behind {
    pub tail: Tail,
    pub lines: Lines,
}

impl Behind {
    // Before the first byte.
    pub fn start() -> Behind
        ensures { result ≡ nothing_behind }
    {
        let tail = Tail::none();
        let lines = Lines::none();
        Behind {
            tail: tail,
            lines: lines,
        }
    }

    // Past some bytes, which are whole tokens; the lines were counted.
    pub fn after(self, passed: &[u8], lines: Lines) -> Behind
        ensures { result ≡ behind_after self passed.now lines }
    {
        let old = self.tail;
        let tail = old.after(passed);
        Behind {
            tail: tail,
            lines: lines,
        }
    }

    // Past some bytes of which not all were taken, by a run that drops what is damaged: of the open elements only the root's line is kept, whose tag is the first.
    pub fn rooted(self, passed: &[u8], line: u64) -> Behind
        ensures { result ≡ behind_rooted self passed.now line }
    {
        let old = self.tail;
        let tail = old.after(passed);
        let began = self.lines;
        let lines = began.root_after(passed, line);
        Behind {
            tail: tail,
            lines: lines,
        }
    }

    // The line behind some bytes that start on a line, and the lines of the elements that are open there.
    pub fn lines_after(self, passed: &[u8], line: u64) -> Passed
        ensures { result ≡ lines_passing self.lines passed.now line }
    {
        let lines = self.lines;
        lines.after(passed, line)
    }
}
