// The live part of a state: all that a token can change, by value. The elements around the innermost one lie in lent memory, and are touched by a push and a pop alone.

#![tactic(auto)]

ghost use Rattle.std.specs.Prelude.{◌≡◌, ◌+◌, ◌≤◌, ◌<◌, ◌^◌, length};
ghost use Rattle.runs.specs.Machine.{most};
ghost use Rattle.state.specs.Bounds.{stack_width};
ghost use Rattle.live.specs.Live.{PushedAs, PoppedAs, kept_in, RestoredIn, placed_in, env_in};

use state::bytes::{put_used, used_at};
use state::{Frame, Saved, State};

// Attributes, echo, the count of visits, whether the root has been closed, the closing number, how many elements are open, and the innermost of them.
#[derive(Clone, Copy)]
pub struct Live {
    pub values: [u8; State::ATTRIBUTES],
    pub echo: bool,
    pub count: u64,
    pub rooted: bool,
    pub closed: u8,
    pub depth: usize,
    pub top: Frame,
}

#[derive(Clone, Copy)]
pub struct Restored {
    pub saved: Saved,
    pub live: Live,
}

impl Live {
    // The most elements that may be open.
    pub const DEPTH: usize = State::DEPTH;

    // The innermost element.
    pub fn top(self) -> Frame
        ensures { result ≡ self.top }
    {
        self.top
    }

    // A new innermost element. The one that it stands in is put where it lies in the stack, whose frames begin at `base`: no more of it than is in use.
    pub fn push(self, f: Frame, stack: &mut [u8], base: usize) -> Live
        requires depth_lt_most { self.depth < most }
        requires stack_width_in_bounds { base + stack_width ≤ length stack.old }
        ensures { PushedAs base self f stack.old result stack.new }
    {
        let d = self.depth;
        let outer = self.top;
        let mut next = self;
        next.top = f;
        next.depth = d + 1;
        if d == 0 {
            return next;
        }
        put_used(stack, base + Frame::BYTES * (d - 1), outer);
        next
    }

    // The innermost element is closed. The one that it stood in is read from the stack.
    pub fn pop(self, stack: &[u8], base: usize) -> Live
        requires depth_le_most { self.depth ≤ most }
        requires stack_width_bound { base + stack_width < 2 ^ 64 }
        ensures { PoppedAs base self stack.now result }
    {
        let d = self.depth;
        if d == 0 {
            return self;
        }
        let mut next = self;
        next.depth = d - 1;
        if d == 1 {
            next.rooted = true;
            return next;
        }
        next.top = used_at(stack, base + Frame::BYTES * (d - 2));
        next
    }

    // Keeps one more set for the innermost element: one of its nodes has been opened.
    pub fn save(self, kept: Saved) -> Live
        ensures { result ≡ kept_in self kept }
    {
        let f = self.top;
        let mut next = self;
        next.top = f.keep(kept);
        next
    }

    // Takes the last set of the innermost element off: its node is to be closed.
    pub fn restore(self) -> Restored
        ensures { RestoredIn self result }
    {
        let f = self.top;
        let mut next = self;
        next.top = f.without_last();
        if self.depth == 0 {
            return Restored {
                saved: Saved::bare(),
                live: next,
            };
        }
        Restored {
            saved: f.last(),
            live: next,
        }
    }

    // The innermost element stands at another place.
    pub fn at_place(self, place: u8) -> Live
        ensures { result ≡ placed_in self place }
    {
        let f = self.top;
        let mut next = self;
        next.top = f.at(place);
        next
    }

    // What visits change: attributes, echo and count.
    pub fn with_env(self, values: [u8; State::ATTRIBUTES], echo: bool, count: u64) -> Live
        ensures { result ≡ env_in self values echo count }
    {
        let mut next = self;
        next.values = values;
        next.echo = echo;
        next.count = count;
        next
    }
}
