// One token: a run takes an event by value, and hands the state back beside the answer.

#![tactic(auto)]

ghost use Rattle.std.specs.Prelude.{◌≡◌, ◌+◌, ◌≤◌, ◌<◌, ◌^◌, length};
ghost use Rattle.std.proofs.Math.Option.{some};
ghost use Rattle.layout.specs.LaidOut.{LaidOut};
ghost use Rattle.text.specs.Chars.{Char};
ghost use Rattle.text.specs.Names.{blank};
ghost use Rattle.runs.specs.Events.{starts, ends, letter};
ghost use Rattle.runs.specs.Visits.{most_visits};
ghost use Rattle.live.specs.Live.{full};
ghost use Rattle.few.specs.Strings.{most_brackets};
ghost use Rattle.acts.specs.Seen.{seen_if};
ghost use Rattle.steps.specs.Seen.{whole};
ghost use Rattle.steps.specs.Stepped.{tag_in, event_visits, SteppedAs, TokenAs};
ghost use Rattle.steps.specs.Taken.{EventIn, TakenAs};
ghost use Rattle.steps.specs.Parts.{refusing, answering_live, ReadyAt, OverStack, FollowsAs, PassesAs, OneTokenAs};
ghost use Rattle.runs.specs.Spells.{empty_token};
ghost use Rattle.calls.specs.Names.{character_token};

use acts::Acted;
use layout::Layout;
use live::Live;
use lookups::{blanks_pass, production_for, tag_named};
use state::State;
use tokens::Event;
use trees::Symbol;
use ways::find_way;

// The output of nearly every token is no longer than this.
const SCRATCH: usize = 64;

// A run under way: where the next byte of output goes, and the state.
#[derive(Clone, Copy)]
pub struct Run {
    pub at: usize,
    pub live: Live,
}

// What an event or a token came to: 0, or the number that it is refused with; where the next byte of output goes, and the state.
#[derive(Clone, Copy)]
pub struct Stepped {
    pub number: usize,
    pub at: usize,
    pub live: Live,
}

// Whether a character is white space.
fn is_blank(c: u32) -> bool
    ensures { result ≡ blank c }
{
    (c == 32) | ((c == 9) | ((c == 13) | (c == 10)))
}

impl Run {
    fn refuse(self, number: usize) -> Stepped
        ensures { result ≡ refusing number self }
    {
        let live = self.live;
        Stepped {
            number: number,
            at: self.at,
            live: live,
        }
    }

    // As acts came out: a rejection is 25, and the run is as it was.
    fn answer(self, done: Option<Acted>) -> Stepped
        ensures { result ≡ answering_live self done }
    {
        let Some(acted) = done else {
            return self.refuse(25);
        };
        let live = acted.live;
        Stepped {
            number: 0,
            at: acted.at,
            live: live,
        }
    }

    // The brackets' visits of a way, whose string is the line, and then the innermost element at the way's place.
    fn follow(
        self,
        s: &[u8],
        l: Layout,
        place: usize,
        line: &[u8],
        stack: &[u8],
        out: &mut [u8],
        write: bool,
    ) -> Option<Acted>
        requires laid_out { LaidOut s.now l }
        requires ready_at { ReadyAt s.now self.live stack.now }
        requires depth_nonzero { 0 < self.live.depth }
        requires place_bound { place < 256 }
        requires line_len_bound { length line.now ≤ most_brackets }
        requires at_bound { self.at ≤ 2 ^ 58 }
        requires count_bound { self.live.count ≤ most_visits + event_visits }
        ensures { FollowsAs s.now place line.now (full self.live stack.now) (record { write = write; lent = out.old; at = self.at }) (seen_if result stack.now) out.new }
    {
        let live = self.live;
        let f = live.top();
        let done = acts::brackets(s, l, f.production as usize, line, live, out, self.at, write)?;
        let after = done.live;
        Some(Acted {
            at: done.at,
            live: after.at_place(place as u8),
        })
    }

    // A start tag where no element is open: the root's, unless the root has been closed.
    fn start_root(
        self,
        s: &[u8],
        l: Layout,
        t: Option<usize>,
        stack: &mut [u8],
        out: &mut [u8],
        write: bool,
    ) -> Stepped
        requires laid_out { LaidOut s.now l }
        requires ready_at { ReadyAt s.now self.live stack.old }
        requires depth_value { self.live.depth ≡ 0 }
        requires at_bound { self.at ≤ 2 ^ 58 }
        requires count_bound { self.live.count ≤ most_visits + event_visits }
        ensures { OverStack self.live stack.old stack.new (SteppedAs s.now (starts (tag_in t)) (full self.live stack.old) (record { write = write; lent = out.old; at = self.at }) (whole result stack.new) out.new) }
    {
        let live = self.live;
        if live.rooted {
            return self.refuse(26);
        }
        let Some(t) = t else {
            return self.refuse(23);
        };
        let Some(q) = production_for(s, l, l.start, t) else {
            return self.refuse(23);
        };
        let entered = acts::enter(s, l, q, live, stack, out, self.at, write);
        self.answer(entered)
    }

    // A start tag of the sheet inside an element, by the way to an atom that can be it.
    fn start_inside(
        self,
        s: &[u8],
        l: Layout,
        t: usize,
        stack: &mut [u8],
        out: &mut [u8],
        write: bool,
    ) -> Stepped
        requires laid_out { LaidOut s.now l }
        requires ready_at { ReadyAt s.now self.live stack.old }
        requires depth_nonzero { 0 < self.live.depth }
        requires at_bound { self.at ≤ 2 ^ 58 }
        requires count_bound { self.live.count ≤ most_visits + event_visits }
        ensures { OverStack self.live stack.old stack.new (SteppedAs s.now (starts (some t)) (full self.live stack.old) (record { write = write; lent = out.old; at = self.at }) (whole result stack.new) out.new) }
    {
        let live = self.live;
        let f = live.top();
        let mut line = [0u8; ways::MOST];
        let Some(w) = find_way(
            s,
            l,
            f.production as usize,
            f.place as usize,
            Symbol::Tag(t),
            &mut line,
        ) else {
            return self.refuse(23);
        };
        let Some(q) = production_for(s, l, w.argument, t) else {
            return self.refuse(23);
        };
        if Live::DEPTH <= live.depth {
            return self.refuse(24);
        }
        let n = w.length;
        let Some(led) = self.follow(s, l, w.place, &line[..n], stack, out, write) else {
            return self.refuse(25);
        };
        let after = led.live;
        let entered = acts::enter(s, l, q, after, stack, out, led.at, write);
        self.answer(entered)
    }

    // The start of a tag by its number, or of none of the sheet's.
    pub fn start(
        self,
        s: &[u8],
        l: Layout,
        t: Option<usize>,
        stack: &mut [u8],
        out: &mut [u8],
        write: bool,
    ) -> Stepped
        requires laid_out { LaidOut s.now l }
        requires ready_at { ReadyAt s.now self.live stack.old }
        requires at_bound { self.at ≤ 2 ^ 58 }
        requires count_bound { self.live.count ≤ most_visits + event_visits }
        ensures { OverStack self.live stack.old stack.new (SteppedAs s.now (starts (tag_in t)) (full self.live stack.old) (record { write = write; lent = out.old; at = self.at }) (whole result stack.new) out.new) }
    {
        if self.live.depth == 0 {
            return self.start_root(s, l, t, stack, out, write);
        }
        let Some(t) = t else {
            return self.refuse(23);
        };
        self.start_inside(s, l, t, stack, out, write)
    }

    // An end tag inside an element: its own, where its expression can end.
    fn end_inside(
        self,
        s: &[u8],
        l: Layout,
        t: Option<usize>,
        stack: &[u8],
        out: &mut [u8],
        write: bool,
    ) -> Stepped
        requires laid_out { LaidOut s.now l }
        requires ready_at { ReadyAt s.now self.live stack.now }
        requires depth_nonzero { 0 < self.live.depth }
        requires at_bound { self.at ≤ 2 ^ 58 }
        requires count_bound { self.live.count ≤ most_visits + event_visits }
        ensures { SteppedAs s.now (ends (tag_in t)) (full self.live stack.now) (record { write = write; lent = out.old; at = self.at }) (whole result stack.now) out.new }
    {
        let live = self.live;
        let f = live.top();
        let q = f.production as usize;
        if t != Some(layout::tag_number_of(s, l, q)) {
            return self.refuse(22);
        }
        let mut line = [0u8; ways::MOST];
        let Some(w) = find_way(s, l, q, f.place as usize, Symbol::End, &mut line) else {
            return self.refuse(23);
        };
        let n = w.length;
        let Some(done) = acts::brackets(s, l, q, &line[..n], live, out, self.at, write) else {
            return self.refuse(25);
        };
        let after = done.live;
        let left = acts::leave(s, l, q, after, stack, out, done.at, write);
        self.answer(left)
    }

    // The end of a tag by its number, or of none of the sheet's.
    pub fn end(
        self,
        s: &[u8],
        l: Layout,
        t: Option<usize>,
        stack: &[u8],
        out: &mut [u8],
        write: bool,
    ) -> Stepped
        requires laid_out { LaidOut s.now l }
        requires ready_at { ReadyAt s.now self.live stack.now }
        requires at_bound { self.at ≤ 2 ^ 58 }
        requires count_bound { self.live.count ≤ most_visits + event_visits }
        ensures { SteppedAs s.now (ends (tag_in t)) (full self.live stack.now) (record { write = write; lent = out.old; at = self.at }) (whole result stack.now) out.new }
    {
        let live = self.live;
        if live.depth == 0 {
            if live.rooted {
                return self.refuse(26);
            }
            return self.refuse(22);
        }
        self.end_inside(s, l, t, stack, out, write)
    }

    // A character inside an element, by the way to an atom that can be one.
    fn character_inside(
        self,
        s: &[u8],
        l: Layout,
        c: u32,
        stack: &[u8],
        out: &mut [u8],
        write: bool,
    ) -> Stepped
        requires laid_out { LaidOut s.now l }
        requires ready_at { ReadyAt s.now self.live stack.now }
        requires depth_nonzero { 0 < self.live.depth }
        requires char { Char c }
        requires at_bound { self.at ≤ 2 ^ 58 }
        requires count_bound { self.live.count ≤ most_visits + event_visits }
        ensures { SteppedAs s.now (letter c) (full self.live stack.now) (record { write = write; lent = out.old; at = self.at }) (whole result stack.now) out.new }
    {
        let live = self.live;
        let f = live.top();
        let mut line = [0u8; ways::MOST];
        let Some(w) = find_way(
            s,
            l,
            f.production as usize,
            f.place as usize,
            Symbol::Character,
            &mut line,
        ) else {
            return self.refuse(23);
        };
        let n = w.length;
        let Some(led) = self.follow(s, l, w.place, &line[..n], stack, out, write) else {
            return self.refuse(25);
        };
        let after = led.live;
        let read = acts::read_character(c, after, out, led.at, write);
        self.answer(Some(read))
    }

    // The character c.
    pub fn character(
        self,
        s: &[u8],
        l: Layout,
        c: u32,
        stack: &[u8],
        out: &mut [u8],
        write: bool,
    ) -> Stepped
        requires laid_out { LaidOut s.now l }
        requires ready_at { ReadyAt s.now self.live stack.now }
        requires char { Char c }
        requires at_bound { self.at ≤ 2 ^ 58 }
        requires count_bound { self.live.count ≤ most_visits + event_visits }
        ensures { SteppedAs s.now (letter c) (full self.live stack.now) (record { write = write; lent = out.old; at = self.at }) (whole result stack.now) out.new }
    {
        let live = self.live;
        if live.depth == 0 {
            if live.rooted {
                return self.refuse(26);
            }
            return self.refuse(23);
        }
        self.character_inside(s, l, c, stack, out, write)
    }

    // An empty tag: its start and its end, or neither.
    fn empty(
        self,
        s: &[u8],
        l: Layout,
        t: Option<usize>,
        stack: &mut [u8],
        out: &mut [u8],
        write: bool,
    ) -> Stepped
        requires laid_out { LaidOut s.now l }
        requires ready_at { ReadyAt s.now self.live stack.old }
        requires at_bound { self.at ≤ 2 ^ 57 }
        requires count_le_most_visits { self.live.count ≤ most_visits }
        ensures { OverStack self.live stack.old stack.new (OneTokenAs s.now (empty_token (tag_in t)) (full self.live stack.old) (record { write = write; lent = out.old; at = self.at }) (whole result stack.new) out.new) }
    {
        let begun = self.start(s, l, t, stack, out, write);
        if begun.number != 0 {
            return begun;
        }
        let after = begun.live;
        let next = Run {
            at: begun.at,
            live: after,
        };
        next.end(s, l, t, stack, out, write)
    }

    // Whether white space is no event where the run stands.
    pub fn passes(self, s: &[u8], l: Layout, stack: &[u8]) -> bool
        requires laid_out { LaidOut s.now l }
        requires ready_at { ReadyAt s.now self.live stack.now }
        ensures { PassesAs s.now (full self.live stack.now) result }
    {
        let live = self.live;
        if live.depth == 0 {
            return true;
        }
        let f = live.top();
        blanks_pass(s, l, f.production as usize)
    }

    // A character, which is no event where it is white space that passes; one by a reference is never white space.
    fn text(
        self,
        s: &[u8],
        l: Layout,
        c: u32,
        literal: bool,
        stack: &[u8],
        out: &mut [u8],
        write: bool,
    ) -> Stepped
        requires laid_out { LaidOut s.now l }
        requires ready_at { ReadyAt s.now self.live stack.now }
        requires char { Char c }
        requires at_bound { self.at ≤ 2 ^ 57 }
        requires count_le_most_visits { self.live.count ≤ most_visits }
        ensures { OneTokenAs s.now (character_token literal c) (full self.live stack.now) (record { write = write; lent = out.old; at = self.at }) (whole result stack.now) out.new }
    {
        if !(literal & is_blank(c)) {
            return self.character(s, l, c, stack, out, write);
        }
        if self.passes(s, l, stack) {
            return self.refuse(0);
        }
        self.character(s, l, c, stack, out, write)
    }

    // A token of the part, without the limits on count and room.
    fn token(
        self,
        s: &[u8],
        l: Layout,
        part: &[u8],
        e: Event,
        stack: &mut [u8],
        out: &mut [u8],
        write: bool,
    ) -> Stepped
        requires laid_out { LaidOut s.now l }
        requires ready_at { ReadyAt s.now self.live stack.old }
        requires event_in { EventIn part.now e }
        requires at_bound { self.at ≤ 2 ^ 57 }
        requires count_le_most_visits { self.live.count ≤ most_visits }
        ensures { OverStack self.live stack.old stack.new (TokenAs s.now part.now e (full self.live stack.old) (record { write = write; lent = out.old; at = self.at }) (whole result stack.new) out.new) }
    {
        match e {
            Event::Start { from, len } => {
                let end = from + len;
                let t = tag_named(s, l, &part[from..end]);
                self.start(s, l, t, stack, out, write)
            }
            Event::End { from, len } => {
                let end = from + len;
                let t = tag_named(s, l, &part[from..end]);
                self.end(s, l, t, stack, out, write)
            }
            Event::Empty { from, len } => {
                let end = from + len;
                let t = tag_named(s, l, &part[from..end]);
                self.empty(s, l, t, stack, out, write)
            }
            Event::Character(c, literal) => self.text(s, l, c, literal, stack, out, write),
        }
    }

    // A token of the part: first dry, and then, where nothing speaks against it, with its output. Where it has none, a second run would only
    // copy.
    pub fn take(
        self,
        s: &[u8],
        l: Layout,
        part: &[u8],
        e: Event,
        stack: &mut [u8],
        out: &mut [u8],
    ) -> Stepped
        requires laid_out { LaidOut s.now l }
        requires ready_at { ReadyAt s.now self.live stack.old }
        requires event_in { EventIn part.now e }
        requires at_in_bounds { self.at ≤ length out.old }
        requires count_le_most_visits { self.live.count ≤ most_visits }
        ensures { OverStack self.live stack.old stack.new (TakenAs s.now part.now e (full self.live stack.old) out.old self.at (whole result stack.new) out.new) }
    {
        let at = self.at;
        let before = self.live;
        let first = Run {
            at: 0,
            live: before,
        };
        let mut scratch = [0u8; SCRATCH];
        let once = first.token(s, l, part, e, stack, &mut scratch, true);
        let after = once.live;
        if once.number != 0 {
            return self.refuse(once.number);
        }
        if State::MOST_VISITS < after.count {
            return self.refuse(30);
        }
        let n = once.at;
        if out.len() - at < n {
            return self.refuse(17);
        }
        if n <= SCRATCH {
            lent::put_bytes(out, at, &scratch[..n], true);
            return Stepped {
                number: 0,
                at: at + n,
                live: after,
            };
        }
        let again = first.token(s, l, part, e, stack, &mut out[at..], true);
        let then = again.live;
        Stepped {
            number: 0,
            at: at + n,
            live: then,
        }
    }
}
