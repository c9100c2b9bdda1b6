// Which visit of a token rejected: where number 25 comes from.

#![tactic(auto)]

ghost use Rattle.std.specs.Prelude.{◌≡◌, List, ℕ, ◌+◌, ◌≤◌, ◌<◌, length};
ghost use Rattle.layout.specs.LaidOut.{LaidOut};
ghost use Rattle.sheet.specs.Defect.{WellFormed};
ghost use Rattle.tokens.specs.declared.Event.TheVariants.{Empty};
ghost use Rattle.runs.specs.Visits.{most_visits};
ghost use Rattle.few.specs.Strings.{most_brackets};
ghost use Rattle.live.specs.Live.{full};
ghost use Rattle.steps.specs.Stepped.{event_visits};
ghost use Rattle.steps.specs.Taken.{EventIn};
ghost use Rattle.steps.specs.Parts.{ReadyAt};
ghost use Rattle.rejecting.specs.Told.{FirstBracketAs, BracketNamed, LastNamed, EventTold, StartTold, TokenTold, AnswersFor};
ghost use Rattle.rejecting.specs.Named.{RejectedBy};

use apart::live_in;
use converter::read_on;
use faults::verdict;
use fit::state_fits;
use layout::{Layout, layout_of};
use live::Live;
use lookups::{production_for, tag_named};
use state::State;
use state::bytes::to_bytes;
use steps::Run;
use tokens::{Answer, Cursor, Event};
use trees::Symbol;
use ways::find_way;

// The number of a token that a program rejects.
const REJECTS: usize = 25;

// Whose visit rejected: that of a production's node, by its number in preorder from 1, or of the production itself; the second one where it is `again`.
#[derive(Clone, Copy)]
pub enum Rejecter {
    Node {
        production: usize,
        node: usize,
        again: bool,
    },
    Element {
        production: usize,
        again: bool,
    },
    Nobody,
}

// The number of the first bracket of a line whose visit rejects, and as many as there are where none does. The brackets up to each one are visited anew: this is asked
// once, of a token that was refused.
fn first_rejecting(s: &[u8], l: Layout, q: usize, line: &[u8], z: Live) -> usize
    requires laid_out { LaidOut s.now l }
    requires q_lt_productions { q < l.productions }
    requires line_len_bound { length line.now ≤ most_brackets }
    requires count_bound { z.count ≤ most_visits + event_visits }
    requires well_formed { WellFormed s.now }
    ensures { (b : List ℕ) → FirstBracketAs s.now q line.now (full z b) result }
{
    for i in 0..line.len() {
        let end = i + 1;
        let mut unwritten = [0u8; 1];
        let Some(_) = acts::brackets(s, l, q, &line[..end], z, &mut unwritten, 0, false) else {
            return i;
        };
    }
    line.len()
}

// The visit of a bracket by its byte, of which half is the node: an odd one closes it.
fn visit_of(q: usize, c: u8) -> Rejecter
    ensures { BracketNamed q c result }
{
    Rejecter::Node {
        production: q,
        node: (c / 2) as usize,
        again: c % 2 == 1,
    }
}

// The act that an event asks for behind its brackets: a tag's, and none of a character's rejects.
fn last_of(s: &[u8], l: Layout, q: usize, n: usize, x: Symbol) -> Rejecter
    requires { LaidOut s.now l }
    ensures { LastNamed x s.now q n result }
{
    match x {
        Symbol::Tag(t) => match production_for(s, l, n, t) {
            Some(p) => Rejecter::Element {
                production: p,
                again: false,
            },
            None => Rejecter::Nobody,
        },
        Symbol::Character => Rejecter::Nobody,
        Symbol::End => Rejecter::Element {
            production: q,
            again: true,
        },
    }
}

// Inside an element: the brackets of the way to the symbol, one after the other, and then the act behind them.
fn of_event_inside(s: &[u8], l: Layout, z: Live, x: Symbol, stack: &[u8]) -> Rejecter
    requires laid_out { LaidOut s.now l }
    requires ready_at { ReadyAt s.now z stack.now }
    requires depth_nonzero { 0 < z.depth }
    requires count_bound { z.count ≤ most_visits + event_visits }
    ensures { EventTold s.now x (full z stack.now) result }
{
    let f = z.top();
    let q = f.production as usize;
    let mut line = [0u8; ways::MOST];
    let Some(w) = find_way(s, l, q, f.place as usize, x, &mut line) else {
        return Rejecter::Nobody;
    };
    let n = w.length;
    let i = first_rejecting(s, l, q, &line[..n], z);
    if i < n {
        return visit_of(q, line[i]);
    }
    last_of(s, l, q, w.argument, x)
}

// The visit that rejects an event that asks for the symbol, where one does.
fn of_event(s: &[u8], l: Layout, z: Live, x: Symbol, stack: &[u8]) -> Rejecter
    requires laid_out { LaidOut s.now l }
    requires ready_at { ReadyAt s.now z stack.now }
    requires count_bound { z.count ≤ most_visits + event_visits }
    ensures { EventTold s.now x (full z stack.now) result }
{
    if z.depth == 0 {
        return last_of(s, l, 0, l.start, x);
    }
    of_event_inside(s, l, z, x, stack)
}

// The same of the start of a tag as it was looked up: where it is none of the sheet's, no act is asked for.
fn of_start(s: &[u8], l: Layout, z: Live, t: Option<usize>, stack: &[u8]) -> Rejecter
    requires laid_out { LaidOut s.now l }
    requires ready_at { ReadyAt s.now z stack.now }
    requires count_bound { z.count ≤ most_visits + event_visits }
    ensures { StartTold s.now t (full z stack.now) result }
{
    match t {
        Some(t) => of_event(s, l, z, Symbol::Tag(t), stack),
        None => Rejecter::Nobody,
    }
}

// The same of an empty tag: of its start or, where that is taken, of its end.
fn of_empty(
    s: &[u8],
    l: Layout,
    z: Live,
    part: &[u8],
    from: usize,
    len: usize,
    stack: &mut [u8],
) -> Rejecter
    requires laid_out { LaidOut s.now l }
    requires ready_at { ReadyAt s.now z stack.old }
    requires len_in_bounds { from + len ≤ length part.now }
    requires count_le_most_visits { z.count ≤ most_visits }
    ensures { TokenTold s.now part.now (Empty from len) (full z stack.old) result }
{
    let end = from + len;
    let t = tag_named(s, l, &part[from..end]);
    let mut unwritten = [0u8; 1];
    let run = Run { at: 0, live: z };
    let begun = run.start(s, l, t, stack, &mut unwritten, false);
    if begun.number != 0 {
        return of_start(s, l, z, t, stack);
    }
    let after = begun.live;
    of_event(s, l, after, Symbol::End, stack)
}

// The visit that rejects a token of the part, where one does.
fn of_token(s: &[u8], l: Layout, z: Live, part: &[u8], e: Event, stack: &mut [u8]) -> Rejecter
    requires laid_out { LaidOut s.now l }
    requires ready_at { ReadyAt s.now z stack.old }
    requires event_in { EventIn part.now e }
    requires count_le_most_visits { z.count ≤ most_visits }
    ensures { TokenTold s.now part.now e (full z stack.old) result }
{
    match e {
        Event::Start { from, len } => {
            let end = from + len;
            let t = tag_named(s, l, &part[from..end]);
            of_start(s, l, z, t, stack)
        }
        Event::End { from: _, len: _ } => of_event(s, l, z, Symbol::End, stack),
        Event::Empty { from, len } => of_empty(s, l, z, part, from, len, stack),
        Event::Character(_, _) => of_event(s, l, z, Symbol::Character, stack),
    }
}

// The same of any token: nobody where it is not refused with that number.
fn of_refused(s: &[u8], l: Layout, z: Live, part: &[u8], e: Event, stack: &mut [u8]) -> Rejecter
    requires laid_out { LaidOut s.now l }
    requires ready_at { ReadyAt s.now z stack.old }
    requires event_in { EventIn part.now e }
    requires count_le_most_visits { z.count ≤ most_visits }
    ensures { AnswersFor s.now part.now e (full z stack.old) result }
{
    let mut unwritten = [0u8; 1];
    let run = Run { at: 0, live: z };
    let taken = run.take(s, l, part, e, stack, &mut unwritten);
    if taken.number != REJECTS {
        return Rejecter::Nobody;
    }
    of_token(s, l, z, part, e, stack)
}

// The visit that rejects the token at the front of a part, where a state stands: nobody where the sheet does not pass, the state does not fit it, no whole token comes
// next, or no visit rejects that token. Whether the state is closed is not looked at: a refusal closes the state that it hands back, and that is the one to ask with.
pub fn find_rejecter(sheet: &[u8], state: State, part: &[u8]) -> Rejecter
    ensures { RejectedBy sheet.now state part.now result }
{
    if verdict(sheet) != 0 {
        return Rejecter::Nobody;
    }
    let mut bytes = [0u8; State::BYTES];
    to_bytes(state, &mut bytes);
    let l = layout_of(sheet);
    if !state_fits(sheet, l, &bytes) {
        return Rejecter::Nobody;
    }
    let cursor = Cursor { at: 0 };
    let answer = read_on(cursor, part, true);
    let Answer::Token(event, _) = answer else {
        return Rejecter::Nobody;
    };
    let live = live_in(&bytes);
    let frames = State::HEAD;
    of_refused(sheet, l, live, part, event, &mut bytes[frames..])
}
