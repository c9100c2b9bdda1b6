// The form of a state as bytes: written into lent memory, read from any bytes. specs/Bytes.antt has the table.
ghost use Rattle.std.specs.Prelude.{◌≡◌, true, [], ◌∷◌, ◌+◌, ◌*◌, ◌<◌, ◌^◌, length};
ghost use Rattle.runs.specs.Visits.{attributes};
ghost use Rattle.runs.specs.Machine.{most};
ghost use Rattle.state.specs.Bounds.{most_sets, set_width, frame_width, stack_width, head_width, state_width};
ghost use Rattle.lent.specs.Put.{put};
ghost use Rattle.state.specs.Changes.{bare_saved, bare_from};
ghost use Rattle.state.specs.Bytes.{flag, number_bytes, saved_bytes, each_bytes, frame_bytes, used_bytes, heading_bytes, bytes_of, Wrote};
ghost use Rattle.layout.specs.Layout.{byte_at};
ghost use Rattle.state.specs.Bytes.{on_at, bytes_at, long_at, saved_at, frame_at, used_at, gathered, heading_from, state_from};

use super::{Frame, Heading, Saved, State};

pub fn put_one(memory: &mut [u8], at: usize, b: u8) -> usize
    requires { at + 1 < 2 ^ 64 }
    ensures { Wrote 1 memory.old at (b ∷ []) memory.new result }
{
    lent::put_byte(memory, at, b, true);
    at + 1
}

fn put_flag(memory: &mut [u8], at: usize, on: bool) -> usize
    requires { at + 1 < 2 ^ 64 }
    ensures { Wrote 1 memory.old at (flag on ∷ []) memory.new result }
{
    if on {
        put_one(memory, at, 1)
    } else {
        put_one(memory, at, 0)
    }
}

fn put_values(memory: &mut [u8], at: usize, values: [u8; State::ATTRIBUTES]) -> usize
    requires { at + attributes < 2 ^ 64 }
    ensures { Wrote attributes memory.old at values memory.new result }
{
    lent::put_bytes(memory, at, &values, true)
}

pub fn put_number(memory: &mut [u8], at: usize, n: u64) -> usize
    requires { at + 8 < 2 ^ 64 }
    ensures { Wrote 8 memory.old at (number_bytes 8 n) memory.new result }
{
    let mut left = n;
    for i in 0..8 {
        lent::put_byte(memory, at + i, (left % 256) as u8, true);
        left = left / 256;
    }
    at + 8
}

fn put_saved(memory: &mut [u8], at: usize, kept: Saved) -> usize
    requires { at + set_width < 2 ^ 64 }
    ensures { Wrote set_width memory.old at (saved_bytes kept) memory.new result }
{
    let values = kept.values;
    let next = put_values(memory, at, values);
    put_flag(memory, next, kept.echo)
}

fn put_sets(memory: &mut [u8], at: usize, sets: &[Saved]) -> usize
    requires { at + set_width * length sets.now < 2 ^ 64 }
    ensures { Wrote (set_width * length sets.now) memory.old at (each_bytes saved_bytes sets.now) memory.new result }
{
    let mut next = at;
    for kept in sets {
        next = put_saved(memory, next, *kept);
    }
    next
}

pub fn put_frame(memory: &mut [u8], at: usize, f: Frame) -> usize
    requires { at + frame_width < 2 ^ 64 }
    ensures { Wrote frame_width memory.old at (frame_bytes f) memory.new result }
{
    let head = [f.production, f.place, f.open];
    let next = lent::put_bytes(memory, at, &head, true);
    put_sets(memory, next, &f.saved)
}

// A frame's head and its sets in use. What lies where the other sets would is left as it is.
pub fn put_used(memory: &mut [u8], at: usize, f: Frame)
    requires { at + frame_width < 2 ^ 64 }
    ensures { memory.new ≡ put true memory.old at (used_bytes f) }
{
    let head = [f.production, f.place, f.open];
    let next = lent::put_bytes(memory, at, &head, true);
    let used = (f.open as usize).min(Frame::SETS);
    put_sets(memory, next, &f.saved[..used]);
}

fn put_frames(memory: &mut [u8], at: usize, frames: [Frame; State::DEPTH]) -> usize
    requires { at + stack_width < 2 ^ 64 }
    ensures { Wrote stack_width memory.old at (each_bytes frame_bytes frames) memory.new result }
{
    let mut next = at;
    for f in &frames {
        next = put_frame(memory, next, *f);
    }
    next
}

// Writes all of a state but its frames from the memory's first byte on.
pub fn put_heading(memory: &mut [u8], h: Heading) -> usize
    ensures { Wrote head_width memory.old 0 (heading_bytes h) memory.new result }
{
    let values = h.values;
    let echo = put_values(memory, 0, values);
    let count = put_flag(memory, echo, h.echo);
    let rooted = put_number(memory, count, h.count);
    let closed = put_flag(memory, rooted, h.rooted);
    let depth = put_one(memory, closed, h.closed);
    put_number(memory, depth, h.depth as u64)
}

// Writes a state from the memory's first byte on, and answers how many bytes that takes. A byte past the memory's end is not stored.
// What is written reads back as the state.
pub fn to_bytes(state: State, memory: &mut [u8]) -> usize
    ensures wrote { Wrote state_width memory.old 0 (bytes_of state) memory.new result }
    ensures state_value { state_from (bytes_of state) ≡ state }
{
    let values = state.values;
    let h = Heading {
        values: values,
        echo: state.echo,
        count: state.count,
        rooted: state.rooted,
        closed: state.closed,
        depth: state.depth,
    };
    let frames = put_heading(memory, h);
    let stack = state.frames;
    put_frames(memory, frames, stack)
}

pub fn byte_at(bytes: &[u8], at: usize) -> u8
    ensures { result ≡ byte_at bytes.now at }
{
    if at < bytes.len() { bytes[at] } else { 0 }
}

pub fn on_at(bytes: &[u8], at: usize) -> bool
    ensures { result ≡ on_at bytes.now at }
{
    byte_at(bytes, at) != 0
}

pub fn number_at(bytes: &[u8], at: usize) -> u64
    requires { at + 8 < 2 ^ 64 }
    ensures { result ≡ long_at bytes.now at }
{
    let mut n: u64 = 0;
    for i in (0..8).rev() {
        n = n * 256 + u64::from(byte_at(bytes, at + i));
    }
    n
}

pub fn values_at(bytes: &[u8], at: usize) -> [u8; State::ATTRIBUTES]
    requires { at + attributes < 2 ^ 64 }
    ensures { result ≡ bytes_at bytes.now at attributes }
{
    let mut values = [0u8; State::ATTRIBUTES];
    for i in 0..State::ATTRIBUTES {
        values[i] = byte_at(bytes, at + i);
    }
    values
}

fn saved_at(bytes: &[u8], at: usize) -> Saved
    requires { at + set_width < 2 ^ 64 }
    ensures { result ≡ saved_at bytes.now at }
{
    let values = values_at(bytes, at);
    Saved {
        values: values,
        echo: on_at(bytes, at + State::ATTRIBUTES),
    }
}

// The first n sets, or all where there are not so many; the others bare.
fn sets_at(bytes: &[u8], at: usize, n: usize) -> [Saved; Frame::SETS]
    requires { at + set_width * most_sets < 2 ^ 64 }
    ensures { result ≡ bare_from bare_saved n (gathered (saved_at bytes.now) set_width at most_sets) }
{
    let none = Saved::bare();
    let mut sets = [none; Frame::SETS];
    let mut next = at;
    for i in 0..n.min(Frame::SETS) {
        sets[i] = saved_at(bytes, next);
        next = next + Saved::BYTES;
    }
    sets
}

pub fn frame_at(bytes: &[u8], at: usize) -> Frame
    requires { at + frame_width < 2 ^ 64 }
    ensures { result ≡ frame_at bytes.now at }
{
    let sets = sets_at(bytes, at + 3, Frame::SETS);
    Frame {
        production: byte_at(bytes, at),
        place: byte_at(bytes, at + 1),
        open: byte_at(bytes, at + 2),
        saved: sets,
    }
}

// A frame of which no more is read than is in use.
pub fn used_at(bytes: &[u8], at: usize) -> Frame
    requires { at + frame_width < 2 ^ 64 }
    ensures { result ≡ used_at bytes.now at }
{
    let open = byte_at(bytes, at + 2);
    let sets = sets_at(bytes, at + 3, open as usize);
    Frame {
        production: byte_at(bytes, at),
        place: byte_at(bytes, at + 1),
        open: open,
        saved: sets,
    }
}

fn frames_at(bytes: &[u8], at: usize) -> [Frame; State::DEPTH]
    requires { at + stack_width < 2 ^ 64 }
    ensures { result ≡ gathered (frame_at bytes.now) frame_width at most }
{
    let none = Frame::bare();
    let mut frames = [none; State::DEPTH];
    let mut next = at;
    for i in 0..State::DEPTH {
        frames[i] = frame_at(bytes, next);
        next = next + Frame::BYTES;
    }
    frames
}

// All but the frames of the state that any bytes give: a byte past their end counts as 0.
pub fn heading_at(bytes: &[u8]) -> Heading
    ensures { result ≡ heading_from bytes.now }
{
    let values = values_at(bytes, 0);
    Heading {
        values: values,
        echo: on_at(bytes, State::ATTRIBUTES),
        count: number_at(bytes, State::COUNT_AT),
        rooted: on_at(bytes, State::ROOTED_AT),
        closed: byte_at(bytes, State::CLOSED_AT),
        depth: number_at(bytes, State::DEPTH_AT) as usize,
    }
}

// The state that any bytes give.
pub fn from_bytes(bytes: &[u8]) -> State
    ensures { result ≡ state_from bytes.now }
{
    let h = heading_at(bytes);
    let values = h.values;
    let frames = frames_at(bytes, State::HEAD);
    State {
        values: values,
        echo: h.echo,
        count: h.count,
        rooted: h.rooted,
        closed: h.closed,
        depth: h.depth,
        frames: frames,
    }
}
