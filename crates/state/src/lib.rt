// The state of a run by value: its stack of open elements, kept and changed in one place, and its form as bytes.

#![tactic(auto)]

pub mod bytes;

ghost use Rattle.std.specs.Prelude.{◌≡◌};
ghost use Rattle.state.specs.Changes.{bare_saved, bare_frame, fresh_state, started, keeping, last_set, without_last, at_place};
ghost use Rattle.state.specs.Changes.{top_of, with_top, tidy_frame};

// What is kept of a node from its first visit to its second: the attributes just after the first, echo just before it.
#[derive(Clone, Copy)]
pub struct Saved {
    pub values: [u8; State::ATTRIBUTES],
    pub echo: bool,
}

// An open element: its production, its place, how many of its sets are in use, and the sets: the production's, then those of the
// open nodes, outermost first. An expression is at most 12 deep.
#[derive(Clone, Copy)]
pub struct Frame {
    pub production: u8,
    pub place: u8,
    pub open: u8,
    pub saved: [Saved; Frame::SETS],
}

// A run between two tokens: attributes, echo, the count of visits, whether the root has been closed, the closing number, and
// how many elements are open, the root first.
#[derive(Clone, Copy)]
pub struct State {
    pub values: [u8; State::ATTRIBUTES],
    pub echo: bool,
    pub count: u64,
    pub rooted: bool,
    pub closed: u8,
    pub depth: usize,
    pub frames: [Frame; State::DEPTH],
}

// A state but for its frames: what stands before them in its bytes.
#[derive(Clone, Copy)]
pub struct Heading {
    pub values: [u8; State::ATTRIBUTES],
    pub echo: bool,
    pub count: u64,
    pub rooted: bool,
    pub closed: u8,
    pub depth: usize,
}

impl Saved {
    // As bytes: the attributes, and echo.
    pub const BYTES: usize = State::ATTRIBUTES + 1;

    // What stands in a set before it is first used.
    pub fn bare() -> Saved
        ensures { result ≡ bare_saved }
    {
        let values = [0u8; State::ATTRIBUTES];
        Saved {
            values: values,
            echo: false,
        }
    }
}

impl Frame {
    // The production's set, and one for each open node.
    pub const SETS: usize = 13;

    // As bytes: production, place, how many sets are in use, and the sets.
    pub const BYTES: usize = 3 + Saved::BYTES * Self::SETS;

    // What stands in a frame before it is first used.
    pub fn bare() -> Frame
        ensures { result ≡ bare_frame }
    {
        let none = Saved::bare();
        let saved = [none; Self::SETS];
        Frame {
            production: 0,
            place: 0,
            open: 0,
            saved: saved,
        }
    }

    // An element as its start tag opens it, with its production's set.
    pub fn start(production: u8, kept: Saved) -> Frame
        ensures { result ≡ started production kept }
    {
        let none = Saved::bare();
        let mut saved = [none; Self::SETS];
        saved[0] = kept;
        Frame {
            production: production,
            place: 0,
            open: 1,
            saved: saved,
        }
    }

    // One more set, where there is room for it.
    pub fn keep(self, kept: Saved) -> Frame
        ensures { result ≡ keeping self kept }
    {
        let n = self.open;
        let k = n as usize;
        if k < Self::SETS {
            let mut next = self;
            next.saved[k] = kept;
            next.open = n + 1;
            next
        } else {
            self
        }
    }

    // The last set in use.
    pub fn last(self) -> Saved
        ensures { result ≡ last_set self }
    {
        let n = self.open;
        let k = n as usize;
        if k == 0 {
            return Saved::bare();
        }
        if Self::SETS < k {
            return Saved::bare();
        }
        self.saved[k - 1]
    }

    // The last set is no longer in use.
    pub fn without_last(self) -> Frame
        ensures { result ≡ without_last self }
    {
        let n = self.open;
        if n == 0 {
            return self;
        }
        let mut next = self;
        next.open = n - 1;
        next
    }

    // Nothing is left in the sets that are not in use.
    pub fn tidy(self) -> Frame
        ensures { result ≡ tidy_frame self }
    {
        let none = Saved::bare();
        let mut saved = self.saved;
        for i in self.open as usize..Self::SETS {
            saved[i] = none;
        }
        Frame {
            production: self.production,
            place: self.place,
            open: self.open,
            saved: saved,
        }
    }

    pub fn at(self, place: u8) -> Frame
        ensures { result ≡ at_place self place }
    {
        let mut next = self;
        next.place = place;
        next
    }
}

impl State {
    // The most elements that may be open, the number of attributes, and the highest value of one.
    pub const DEPTH: usize = 32;

    pub const ATTRIBUTES: usize = programs::ATTRIBUTES;

    pub const HIGHEST: u8 = programs::HIGHEST_VALUE;

    // The highest count of visits: 2^62.
    pub const MOST_VISITS: u64 = 0x4000000000000000;

    // The closing number of a state that is not closed: none of 0, 20 to 27 and 30.
    pub const OPEN: u8 = 255;

    // As bytes: where the parts of the head stand, echo behind the attributes; what stands before the frames, all frames, and the whole.
    pub const COUNT_AT: usize = Self::ATTRIBUTES + 1;

    pub const ROOTED_AT: usize = Self::COUNT_AT + 8;

    pub const CLOSED_AT: usize = Self::ROOTED_AT + 1;

    pub const DEPTH_AT: usize = Self::CLOSED_AT + 1;

    pub const HEAD: usize = Self::DEPTH_AT + 8;

    pub const STACK: usize = Frame::BYTES * Self::DEPTH;

    pub const BYTES: usize = Self::HEAD + Self::STACK;

    // No open element, all attributes 0, echo off, count 0.
    pub fn fresh() -> State
        ensures { result ≡ fresh_state }
    {
        let values = [0u8; Self::ATTRIBUTES];
        let echo = false;
        let none = Frame::bare();
        let frames = [none; Self::DEPTH];
        State {
            values: values,
            echo: echo,
            count: 0,
            rooted: false,
            closed: Self::OPEN,
            depth: 0,
            frames: frames,
        }
    }

    // The innermost element.
    pub fn top(self) -> Frame
        ensures { result ≡ top_of self }
    {
        let d = self.depth;
        if d == 0 {
            return Frame::bare();
        }
        if Self::DEPTH < d {
            return Frame::bare();
        }
        self.frames[d - 1]
    }

    // The innermost element is changed to f.
    pub fn with_top(self, f: Frame) -> State
        ensures { result ≡ with_top self f }
    {
        let d = self.depth;
        if d == 0 {
            return self;
        }
        if Self::DEPTH < d {
            return self;
        }
        let mut next = self;
        next.frames[d - 1] = f;
        next
    }
}
