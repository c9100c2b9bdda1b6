// Bytes and stacks of a bounded size, by value: what finds no room is left out.

#![tactic(auto)]

ghost use Rattle.std.specs.Prelude.{◌≡◌, [], ◌∷◌, ◌≤◌, ◌%◌, length, replicate};
ghost use Rattle.limits.specs.Limits.{longest_program};
ghost use Rattle.strokes.specs.Strokes.{most_stacked, written_on, inserted_at, stacked, topped, first_of, rest_of, zeros_of};
ghost use Rattle.pages.specs.Pages.{page_text, stack_at, stack_of, PageIs, StackIs, Unwound, Skipped};

// The first len bytes of a page are its text.
#[derive(Clone, Copy)]
pub struct Page {
    pub bytes: [u8; 256],
    pub len: usize,
}

#[derive(Clone, Copy)]
pub struct Stack {
    pub items: [usize; 33],
    pub count: usize,
}

// So many closing 0s, and the marks that are left behind them.
#[derive(Clone, Copy)]
pub struct Ends {
    pub zeros: usize,
    pub left: usize,
}

pub fn low(n: usize) -> u8
    ensures { result ≡ n % 256 }
{
    (n % 256) as u8
}

impl Page {
    pub fn fresh() -> Page
        ensures { PageIs [] result }
    {
        let bytes = [0; 256];
        Page {
            bytes: bytes,
            len: 0,
        }
    }

    // How many bytes the text has.
    pub fn size(self) -> usize
        requires { self.len ≤ longest_program }
        ensures { result ≡ length (page_text self) }
    {
        self.len
    }

    // One byte more, where there is room.
    pub fn push(self, b: u8) -> Page
        requires { self.len ≤ longest_program }
        ensures { PageIs (written_on (page_text self) (b ∷ [])) result }
    {
        let len = self.len;
        if 256 <= len {
            return self;
        }
        let mut bytes = self.bytes;
        bytes[len] = b;
        Page {
            bytes: bytes,
            len: len + 1,
        }
    }

    pub fn zeros(self, n: usize) -> Page
        requires { self.len ≤ longest_program }
        ensures { PageIs (written_on (page_text self) (replicate n 0)) result }
    {
        let mut page = self;
        for _ in 0..n {
            page = page.push(0);
        }
        page
    }

    // One byte more at a place among the others: each of those behind it goes one on.
    pub fn insert(self, at: usize, b: u8) -> Page
        requires { self.len ≤ longest_program }
        ensures { PageIs (inserted_at at b (page_text self)) result }
    {
        let len = self.len;
        if 256 <= len {
            return self;
        }
        if len < at {
            return self;
        }
        let mut bytes = self.bytes;
        bytes.copy_within(at..len, at + 1);
        bytes[at] = b;
        Page {
            bytes: bytes,
            len: len + 1,
        }
    }
}

impl Stack {
    pub fn fresh() -> Stack
        ensures { StackIs [] result }
    {
        let items = [0; 33];
        Stack {
            items: items,
            count: 0,
        }
    }

    // One more, where there is room.
    pub fn push(self, m: usize) -> Stack
        requires { self.count ≤ most_stacked }
        ensures { StackIs (stacked m (stack_of self)) result }
    {
        let n = self.count;
        if 33 <= n {
            return self;
        }
        let mut items = self.items;
        items[n] = m;
        Stack {
            items: items,
            count: n + 1,
        }
    }

    pub fn top(self) -> usize
        requires { self.count ≤ most_stacked }
        ensures { result ≡ first_of (stack_of self) }
    {
        let n = self.count;
        if n == 0 {
            return 0;
        }
        let items = self.items;
        items[n - 1]
    }

    // The first n.
    pub fn cut(self, n: usize) -> Stack
        requires { n ≤ most_stacked }
        ensures { StackIs (stack_at self.items n) result }
    {
        let items = self.items;
        Stack {
            items: items,
            count: n,
        }
    }

    pub fn pop(self) -> Stack
        requires { self.count ≤ most_stacked }
        ensures { StackIs (rest_of (stack_of self)) result }
    {
        let n = self.count;
        if n == 0 {
            return self;
        }
        self.cut(n - 1)
    }

    // Another on top.
    pub fn topped(self, m: usize) -> Stack
        requires { self.count ≤ most_stacked }
        ensures { StackIs (topped m (stack_of self)) result }
    {
        let n = self.count;
        if n == 0 {
            return self;
        }
        let mut items = self.items;
        items[n - 1] = m;
        Stack {
            items: items,
            count: n,
        }
    }

    // Up to the list around the place.
    pub fn unwind(self) -> Ends
        requires { self.count ≤ most_stacked }
        ensures { Unwound self result }
    {
        let items = self.items;
        let mut zeros = 0;
        for i in (0..self.count).rev() {
            let m = items[i];
            if m == 0 {
                return Ends {
                    zeros: zeros,
                    left: i + 1,
                };
            }
            zeros += zeros_of(m);
        }
        Ends {
            zeros: zeros,
            left: 0,
        }
    }

    // Up to the if that has no else yet.
    pub fn skip(self) -> Ends
        requires { self.count ≤ most_stacked }
        ensures { Skipped self result }
    {
        let items = self.items;
        let mut zeros = 1;
        for i in (0..self.count).rev() {
            let m = items[i];
            if m != 1 {
                return Ends {
                    zeros: zeros,
                    left: i + 1,
                };
            }
            zeros += 1;
        }
        Ends {
            zeros: zeros,
            left: 0,
        }
    }
}

fn zeros_of(m: usize) -> usize
    ensures value { result ≡ zeros_of m }
    ensures upper_bound { result ≤ 2 }
{
    if m == 1 {
        return 1;
    }
    2
}
