// The live part of a state, read from the bytes where the state lies, and put back there. The elements around the innermost one stay where they lie.

#![tactic(auto)]

ghost use Rattle.std.specs.Prelude.{◌≡◌, true, false, cond, ◌+◌, ◌-◌, ◌*◌, ◌≤◌, eqb, length, drop, replicate};
ghost use Rattle.lent.specs.Put.{put};
ghost use Rattle.runs.specs.Machine.{most};
ghost use Rattle.state.specs.Bounds.{frame_width, head_width, state_width};
ghost use Rattle.state.specs.Bytes.{gathered, used_at, each_bytes, frame_bytes, bytes_of, state_from, Wrote};
ghost use Rattle.state.specs.Changes.{tidied};
ghost use Rattle.state.specs.Meaning.{Shaped};
ghost use Rattle.live.specs.Live.{full};
ghost use Rattle.apart.specs.Apart.{innermost_in, frames_in_use};

use live::Live;
use state::bytes::{heading_at, put_frame, put_heading, used_at};
use state::{Frame, Heading, State};

// Whether the root has been closed; while an element is open the flag says nothing.
fn root_closed(depth: usize, rooted: bool) -> bool
    ensures { result ≡ cond (eqb depth 0) rooted false }
{
    if depth == 0 { rooted } else { false }
}

// The innermost of so many open elements.
fn innermost(bytes: &[u8], depth: usize) -> Frame
    requires { depth ≤ most }
    ensures { result ≡ innermost_in depth bytes.now }
{
    if depth == 0 {
        return Frame::bare();
    }
    used_at(bytes, State::HEAD + Frame::BYTES * (depth - 1))
}

// The live part of the state that bytes are. With the frames, where they lie, it is that state with nothing in what is not in use.
pub fn live_in(bytes: &[u8]) -> Live
    requires { Shaped (state_from bytes.now) }
    ensures { full result (drop head_width bytes.now) ≡ tidied (state_from bytes.now) }
{
    let h = heading_at(bytes);
    let values = h.values;
    Live {
        values: values,
        echo: h.echo,
        count: h.count,
        rooted: root_closed(h.depth, h.rooted),
        closed: h.closed,
        depth: h.depth,
        top: innermost(bytes, h.depth),
    }
}

// Writes the first n frames anew where they lie, with nothing in the sets that are not in use.
fn tidy_frames(bytes: &mut [u8], n: usize) -> usize
    requires { n ≤ most }
    ensures { Wrote (frame_width * n) bytes.old head_width (each_bytes frame_bytes (gathered (used_at bytes.old) frame_width head_width n)) bytes.new result }
{
    let mut next = State::HEAD;
    for _ in 0..n {
        let f = used_at(bytes, next);
        next = put_frame(bytes, next, f);
    }
    next
}

// The frames in use: those around the innermost element as they lie, and its own.
fn put_frames_in_use(live: Live, bytes: &mut [u8]) -> usize
    requires { live.depth ≤ most }
    ensures { Wrote (frame_width * live.depth) bytes.old head_width (each_bytes frame_bytes (frames_in_use live.depth live.top bytes.old)) bytes.new result }
{
    let depth = live.depth;
    if depth == 0 {
        return State::HEAD;
    }
    let next = tidy_frames(bytes, depth - 1);
    let top = live.top;
    put_frame(bytes, next, top.tidy())
}

// Nothing is left from a place on.
fn clear_from(memory: &mut [u8], at: usize)
    ensures { memory.new ≡ put true memory.old at (replicate (length memory.old - at) 0) }
{
    if at < memory.len() {
        memory[at..].fill(0);
    }
}

// Puts the live part back: the bytes are then those of the state that it is with the frames where they lie, with nothing in what is not in use.
pub fn put_back(live: Live, bytes: &mut [u8])
    requires depth_le_most { live.depth ≤ most }
    requires bytes_len { length bytes.old ≡ state_width }
    ensures bytes_after { bytes.new ≡ bytes_of (tidied (full live (drop head_width bytes.old))) }
    ensures bytes_after_2 { state_from bytes.new ≡ tidied (full live (drop head_width bytes.old)) }
{
    let used = put_frames_in_use(live, bytes);
    clear_from(bytes, used);
    let values = live.values;
    let h = Heading {
        values: values,
        echo: live.echo,
        count: live.count,
        rooted: root_closed(live.depth, live.rooted),
        closed: live.closed,
        depth: live.depth,
    };
    put_heading(bytes, h);
}
