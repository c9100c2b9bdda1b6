// The bytes of a program of a rule text while it is read, by value: each token puts its bytes behind the others, or one byte in among them.

#![tactic(auto)]

ghost use Rattle.std.specs.Prelude.{◌≡◌, [], ◌∷◌, ◌≤◌};
ghost use Rattle.limits.specs.Limits.{longest_program};
ghost use Rattle.strokes.specs.Strokes.{inks, most_stacked, operand_on, inked, writes, tests, elses, ends, separates, conjoins, disjoins, opens, closes, no_ink, operand_code, plain_stroke, word_stroke, sign_stroke, stroke_of, item_bytes, sealed_bytes};
ghost use Rattle.pages.specs.Pages.{page_text, stack_of, PageIs};
ghost use Rattle.inks.specs.Held.{inks_in, Trim, InkIs};

use pages::{Page, Stack, low};

// A program that is being read: its bytes so far; what an operand would be, 0 the target of an assignment, 1 what is assigned, 2 a comparison's first, 3 its
// second; the target; what lies around the place, 0 a list, 1 an if in its second branch, 2 an if in its first; and for each open parenthesis where an or and
// an and would be put in.
#[derive(Clone, Copy)]
pub struct Ink {
    pub page: Page,
    pub mode: usize,
    pub target: u8,
    pub marks: Stack,
    pub ors: Stack,
    pub ands: Stack,
}

// A value, an attribute's current value, or the value that it had.
fn operand_code(kind: usize, second: bool) -> u8
    ensures { result ≡ operand_code second kind }
{
    if kind == 1 {
        return 0;
    }
    if kind == 3 {
        if second {
            return 2;
        }
    }
    1
}

impl Ink {
    pub fn fresh() -> Ink
        ensures { InkIs no_ink result }
    {
        let page = Page::fresh();
        let bare = Stack::fresh();
        let marks = bare.push(0);
        Ink {
            page: page,
            mode: 0,
            target: 0,
            marks: marks,
            ors: bare,
            ands: bare,
        }
    }

    // With another page and mode.
    fn paged(self, page: Page, mode: usize) -> Ink
        requires trim { Trim self }
        requires len_le_longest_program { page.len ≤ longest_program }
        ensures { InkIs (inks (page_text page) mode self.target (stack_of self.marks) (stack_of self.ors) (stack_of self.ands)) result }
    {
        let marks = self.marks;
        let ors = self.ors;
        let ands = self.ands;
        Ink {
            page: page,
            mode: mode,
            target: self.target,
            marks: marks,
            ors: ors,
            ands: ands,
        }
    }

    // With another page, other marks, and that mode.
    fn marked(self, page: Page, marks: Stack, mode: usize) -> Ink
        requires trim { Trim self }
        requires len_le_longest_program { page.len ≤ longest_program }
        requires count_le_most_stacked { marks.count ≤ most_stacked }
        ensures { InkIs (inks (page_text page) mode self.target (stack_of marks) (stack_of self.ors) (stack_of self.ands)) result }
    {
        let ors = self.ors;
        let ands = self.ands;
        Ink {
            page: page,
            mode: mode,
            target: self.target,
            marks: marks,
            ors: ors,
            ands: ands,
        }
    }

    // With another page, other places where an or and an and would be put in, and that mode.
    fn joined(self, page: Page, ors: Stack, ands: Stack, mode: usize) -> Ink
        requires trim { Trim self }
        requires len_le_longest_program { page.len ≤ longest_program }
        requires count_le_most_stacked { ors.count ≤ most_stacked }
        requires count_le_most_stacked_2 { ands.count ≤ most_stacked }
        ensures { InkIs (inks (page_text page) mode self.target (stack_of self.marks) (stack_of ors) (stack_of ands)) result }
    {
        let marks = self.marks;
        Ink {
            page: page,
            mode: mode,
            target: self.target,
            marks: marks,
            ors: ors,
            ands: ands,
        }
    }

    // An attribute that is assigned.
    fn targeted(self, n: u8) -> Ink
        requires { Trim self }
        ensures { InkIs (inks (page_text self.page) 0 n (stack_of self.marks) (stack_of self.ors) (stack_of self.ands)) result }
    {
        let page = self.page;
        let marks = self.marks;
        let ors = self.ors;
        let ands = self.ands;
        Ink {
            page: page,
            mode: 0,
            target: n,
            marks: marks,
            ors: ors,
            ands: ands,
        }
    }

    // A value or an attribute, by what is wanted.
    fn operand(self, code: u8, n: u8) -> Ink
        requires trim { Trim self }
        requires code_bound { code ≤ 2 }
        ensures { InkIs (operand_on self.mode code n (inks_in self)) result }
    {
        let page = self.page;
        let mode = self.mode;
        if mode == 0 {
            return self.targeted(n);
        }
        if mode == 1 {
            let written = page.push(code + 1).push(self.target).push(n);
            return self.paged(written, 0);
        }
        if mode == 2 {
            let written = page.push(0).push(code).push(n);
            return self.paged(written, 3);
        }
        let written = page.push(code).push(n);
        self.paged(written, 2)
    }

    // A byte behind the others.
    fn byte(self, b: u8) -> Ink
        requires { Trim self }
        ensures { InkIs (inked (writes (b ∷ [])) (inks_in self)) result }
    {
        let page = self.page;
        let written = page.push(b);
        self.paged(written, self.mode)
    }

    fn plain(self, kind: usize) -> Ink
        requires { Trim self }
        ensures { InkIs (inked (plain_stroke kind) (inks_in self)) result }
    {
        if kind == 11 {
            return self.byte(8);
        }
        if kind == 12 {
            return self.byte(9);
        }
        if kind == 13 {
            return self.byte(4);
        }
        self
    }

    // A condition begins.
    fn test(self) -> Ink
        requires { Trim self }
        ensures { InkIs (inked tests (inks_in self)) result }
    {
        let page = self.page;
        let written = page.push(10);
        let bare = Stack::fresh();
        let starts = bare.push(written.size());
        self.joined(written, starts, starts, 2)
    }

    // An else.
    fn otherwise(self) -> Ink
        requires { Trim self }
        ensures { InkIs (inked elses (inks_in self)) result }
    {
        let page = self.page;
        let marks = self.marks;
        let e = marks.skip();
        let written = page.zeros(e.zeros);
        let left = marks.cut(e.left).topped(1);
        self.marked(written, left, self.mode)
    }

    // The ifs in a list end.
    fn separate(self) -> Ink
        requires { Trim self }
        ensures { InkIs (inked separates (inks_in self)) result }
    {
        let page = self.page;
        let marks = self.marks;
        let e = marks.unwind();
        let written = page.zeros(e.zeros);
        let left = marks.cut(e.left);
        self.marked(written, left, self.mode)
    }

    // A list ends, between begin and end.
    fn end(self) -> Ink
        requires { Trim self }
        ensures { InkIs (inked ends (inks_in self)) result }
    {
        let page = self.page;
        let marks = self.marks;
        let e = marks.unwind();
        let written = page.zeros(e.zeros);
        let left = marks.cut(e.left).pop();
        self.marked(written, left, self.mode)
    }

    fn word(self, kind: usize) -> Ink
        requires { Trim self }
        ensures { InkIs (inked (word_stroke kind) (inks_in self)) result }
    {
        let page = self.page;
        let marks = self.marks;
        if kind == 15 {
            return self.test();
        }
        if kind == 16 {
            return self.marked(page, marks.push(2), 0);
        }
        if kind == 17 {
            return self.otherwise();
        }
        if kind == 18 {
            return self.marked(page, marks.push(0), self.mode);
        }
        if kind == 19 {
            return self.end();
        }
        self
    }

    fn and(self) -> Ink
        requires { Trim self }
        ensures { InkIs (inked conjoins (inks_in self)) result }
    {
        let page = self.page;
        let ands = self.ands;
        let written = page.insert(ands.top(), 2);
        self.paged(written, self.mode)
    }

    fn or(self) -> Ink
        requires { Trim self }
        ensures { InkIs (inked disjoins (inks_in self)) result }
    {
        let page = self.page;
        let ors = self.ors;
        let ands = self.ands;
        let written = page.insert(ors.top(), 3);
        let joints = ands.topped(written.size());
        self.joined(written, ors, joints, self.mode)
    }

    fn open(self) -> Ink
        requires { Trim self }
        ensures { InkIs (inked opens (inks_in self)) result }
    {
        let page = self.page;
        let ors = self.ors;
        let ands = self.ands;
        let at = page.size();
        self.joined(page, ors.push(at), ands.push(at), self.mode)
    }

    fn close(self) -> Ink
        requires { Trim self }
        ensures { InkIs (inked closes (inks_in self)) result }
    {
        let page = self.page;
        let ors = self.ors;
        let ands = self.ands;
        self.joined(page, ors.pop(), ands.pop(), self.mode)
    }

    fn sign(self, kind: usize) -> Ink
        requires { Trim self }
        ensures { InkIs (inked (sign_stroke kind) (inks_in self)) result }
    {
        if kind == 20 {
            return self.and();
        }
        if kind == 21 {
            return self.or();
        }
        if kind == 22 {
            return self.byte(1);
        }
        if kind == 24 {
            let page = self.page;
            return self.paged(page, 1);
        }
        if kind == 25 {
            return self.open();
        }
        if kind == 26 {
            return self.close();
        }
        if kind == 32 {
            return self.separate();
        }
        self
    }

    // The next token is of that kind, has that number, and is no item of a print.
    pub fn put(self, kind: usize, number: usize, second: bool) -> Ink
        requires { Trim self }
        ensures { InkIs (inked (stroke_of second kind number) (inks_in self)) result }
    {
        if kind < 5 {
            let code = operand_code(kind, second);
            return self.operand(code, low(number));
        }
        if kind < 15 {
            return self.plain(kind);
        }
        if kind < 20 {
            return self.word(kind);
        }
        self.sign(kind)
    }

    // The next token is an item of a print: a tag of that number, or a string at that place and of that length.
    pub fn item(self, kind: usize, place: usize, length: usize) -> Ink
        requires { Trim self }
        ensures { InkIs (inked (writes (item_bytes kind place length)) (inks_in self)) result }
    {
        let page = self.page;
        let b = low(place);
        if kind == 6 {
            let written = page.push(5).push(b);
            return self.paged(written, self.mode);
        }
        if kind == 7 {
            let written = page.push(6).push(b);
            return self.paged(written, self.mode);
        }
        if kind == 8 {
            let written = page.push(5).push(b).push(6).push(b);
            return self.paged(written, self.mode);
        }
        if kind == 9 {
            let written = page
                .push(7)
                .push(b)
                .push(low(place / 256))
                .push(low(length));
            return self.paged(written, self.mode);
        }
        self
    }

    // Behind the closing brace: the bytes of the whole program.
    pub fn sealed(self) -> Page
        requires { Trim self }
        ensures { PageIs (sealed_bytes (inks_in self)) result }
    {
        let page = self.page;
        let marks = self.marks;
        let e = marks.unwind();
        page.zeros(e.zeros).push(0)
    }
}
