// Acts: what brackets, tags and characters do to a state, with output into lent memory or dry.

#![tactic(auto)]

ghost use Rattle.std.specs.Prelude.{◌≡◌, List, length, ℕ, ◌+◌, ◌≤◌, ◌<◌, ◌^◌};
ghost use Rattle.text.specs.Chars.{Char};
ghost use Rattle.layout.specs.LaidOut.{LaidOut};
ghost use Rattle.sheet.specs.Defect.{WellFormed};
ghost use Rattle.runs.specs.Machine.{most};
ghost use Rattle.state.specs.Bounds.{stack_width};
ghost use Rattle.live.specs.Live.{full, SameBelow};
ghost use Rattle.few.specs.Strings.{most_brackets};
ghost use Rattle.acts.specs.Seen.{seen, seen_if};
ghost use Rattle.acts.specs.Acted.{EntersAs, LeavesAs, ReadsAs, BracketsAs};
ghost use Rattle.acts.specs.Visited.{FieldFound, PerformsAs, VisitedAs, EchoedAs};
ghost use Rattle.acts.specs.Standing.{SlotIs, standing_at};

use layout::Layout;
use live::Live;
use state::{Frame, Saved, State};
use visits::{Env, Performed};

// A field that names no program.
const NONE: usize = 65535;

// What acts came to, where no program rejected: where the next byte of output goes, and the state.
#[derive(Clone, Copy)]
pub struct Acted {
    pub at: usize,
    pub live: Live,
}

// The field of production q's node i for its first visit or its second; the production itself is node 0.
fn field_of(s: &[u8], l: Layout, q: usize, i: usize, again: bool) -> usize
    requires laid_out { LaidOut s.now l }
    requires q_lt_productions { q < l.productions }
    requires well_formed { WellFormed s.now }
    ensures { FieldFound s.now q i again result }
{
    if i == 0 {
        if again {
            return layout::second_program_of(s, l, q);
        }
        return layout::first_program_of(s, l, q);
    }
    if layout::node_count_of(s, l, q) < i {
        return NONE;
    }
    let node = layout::first_node_of(s, l, q) + (i - 1);
    if again {
        return layout::second_program_of_node(s, l, node);
    }
    layout::first_program_of_node(s, l, node)
}

// The program of production q's node i for its first visit or its second, run on the attributes and echo alone.
fn perform(
    s: &[u8],
    l: Layout,
    q: usize,
    i: usize,
    again: bool,
    kept: [u8; State::ATTRIBUTES],
    before: Env,
    out: &mut [u8],
    at: usize,
    write: bool,
) -> Option<Performed>
    requires laid_out { LaidOut s.now l }
    requires q_lt_productions { q < l.productions }
    requires at_bound { at ≤ 2 ^ 60 }
    requires well_formed { WellFormed s.now }
    ensures { PerformsAs s.now q i again kept before (record { write = write; lent = out.old; at = at }) result out.new }
{
    let field = field_of(s, l, q, i, again);
    visits::perform(s, l, field, kept, before, out, at, write)
}

// A visit of production q's node i, which counts one with or without a program.
fn visit(
    s: &[u8],
    l: Layout,
    q: usize,
    i: usize,
    again: bool,
    kept: [u8; State::ATTRIBUTES],
    z: Live,
    out: &mut [u8],
    at: usize,
    write: bool,
) -> Option<Acted>
    requires laid_out { LaidOut s.now l }
    requires q_lt_productions { q < l.productions }
    requires at_bound { at ≤ 2 ^ 60 }
    requires count_bound { z.count + 1 < 2 ^ 64 }
    requires well_formed { WellFormed s.now }
    ensures { (b : List ℕ) → VisitedAs s.now q i again kept (full z b) (record { write = write; lent = out.old; at = at }) (seen_if result b) out.new }
{
    let values = z.values;
    let before = Env {
        values: values,
        echo: z.echo,
    };
    let field = field_of(s, l, q, i, again);
    let done = visits::perform(s, l, field, kept, before, out, at, write)?;
    let after = done.env;
    let changed = after.values;
    Some(Acted {
        at: done.at,
        live: z.with_env(changed, after.echo, z.count + 1),
    })
}

// Writes production q's start tag or end tag, where echo is on.
fn echo_tag(
    s: &[u8],
    l: Layout,
    q: usize,
    ending: bool,
    on: bool,
    out: &mut [u8],
    at: usize,
    write: bool,
) -> usize
    requires laid_out { LaidOut s.now l }
    requires q_lt_productions { q < l.productions }
    requires at_bound { at ≤ 2 ^ 61 }
    requires well_formed { WellFormed s.now }
    ensures { EchoedAs s.now q ending on (record { write = write; lent = out.old; at = at }) result out.new }
{
    if on {
        let t = layout::tag_number_of(s, l, q);
        return visits::put_tag(s, t, ending, out, at, write);
    }
    at
}

// A start tag of production q: its first visit, the tag if echo is then on, and a new innermost element.
pub fn enter(
    s: &[u8],
    l: Layout,
    q: usize,
    z: Live,
    stack: &mut [u8],
    out: &mut [u8],
    at: usize,
    write: bool,
) -> Option<Acted>
    requires laid_out { LaidOut s.now l }
    requires q_lt_productions { q < l.productions }
    requires at_bound { at ≤ 2 ^ 59 }
    requires count_bound { z.count ≤ 2 ^ 63 }
    requires well_formed { WellFormed s.now }
    requires depth_lt_most { z.depth < most }
    requires stack_width_in_bounds { stack_width ≤ length stack.old }
    ensures enters_as { EntersAs s.now q (full z stack.old) (record { write = write; lent = out.old; at = at }) (seen_if result stack.new) out.new }
    ensures same_below { SameBelow z stack.old stack.new }
    ensures stack_len_unchanged { length stack.new ≡ length stack.old }
{
    let nothing = [0u8; State::ATTRIBUTES];
    let visited = visit(s, l, q, 0, false, nothing, z, out, at, write)?;
    let after = visited.live;
    let to = echo_tag(s, l, q, false, after.echo, out, visited.at, write);
    let values = after.values;
    let kept = Saved {
        values: values,
        echo: z.echo,
    };
    let inside = after.push(Frame::start(q as u8, kept), stack, 0);
    Some(Acted {
        at: to,
        live: inside,
    })
}

// An end tag of production q: its second visit with the values just after its first, the tag if echo is then on; last of all echo
// returns to what it was before the first visit, and the element is closed.
pub fn leave(
    s: &[u8],
    l: Layout,
    q: usize,
    z: Live,
    stack: &[u8],
    out: &mut [u8],
    at: usize,
    write: bool,
) -> Option<Acted>
    requires laid_out { LaidOut s.now l }
    requires q_lt_productions { q < l.productions }
    requires at_bound { at ≤ 2 ^ 59 }
    requires count_bound { z.count ≤ 2 ^ 63 }
    requires well_formed { WellFormed s.now }
    requires depth_le_most { z.depth ≤ most }
    ensures { LeavesAs s.now q (full z stack.now) (record { write = write; lent = out.old; at = at }) (seen_if result stack.now) out.new }
{
    let taken = z.restore();
    let kept = taken.saved;
    let values = kept.values;
    let visited = visit(s, l, q, 0, true, values, taken.live, out, at, write)?;
    let after = visited.live;
    let to = echo_tag(s, l, q, true, after.echo, out, visited.at, write);
    let changed = after.values;
    let left = after.with_env(changed, kept.echo, after.count);
    Some(Acted {
        at: to,
        live: left.pop(stack, 0),
    })
}

// A character, written if echo is on.
pub fn read_character(c: u32, z: Live, out: &mut [u8], at: usize, write: bool) -> Acted
    requires at_bound { at ≤ 2 ^ 59 }
    requires char { Char c }
    ensures { (b : List ℕ) → ReadsAs c (full z b) (record { write = write; lent = out.old; at = at }) (seen result b) out.new }
{
    if z.echo {
        let to = output::put_char(out, at, c, write);
        return Acted { at: to, live: z };
    }
    Acted { at: at, live: z }
}

// Where the set of a bracket stands, n sets being in use: the one that an opening one keeps, or that a closing one takes off. Past all sets where no element is
// open, or there is none to take.
fn slot(c: u8, n: u8, depth: usize) -> usize
    ensures { SlotIs c n depth result }
{
    let k = n as usize;
    if depth == 0 {
        return Frame::SETS;
    }
    if c % 2 == 0 {
        return k;
    }
    if k == 0 {
        return Frame::SETS;
    }
    k - 1
}

// The state after i brackets of z's: other attributes and echo, i visits more, and the sets of its innermost element.
fn standing(z: Live, i: usize, env: Env, n: u8, sets: [Saved; Frame::SETS]) -> Live
    requires { z.count + i < 2 ^ 64 }
    ensures { result ≡ standing_at z i env n sets }
{
    let values = env.values;
    let f = z.top;
    let top = Frame {
        production: f.production,
        place: f.place,
        open: n,
        saved: sets,
    };
    Live {
        values: values,
        echo: env.echo,
        count: z.count + (i as u64),
        rooted: z.rooted,
        closed: z.closed,
        depth: z.depth,
        top: top,
    }
}

// The brackets of a string, in turn, until a program rejects. A byte's half is its node. An even one opens it: its first visit, of which the attributes just
// after it and echo before it are kept. An odd one closes it: its second visit, with the values just after its first, and last of all echo returns.
pub fn brackets(
    s: &[u8],
    l: Layout,
    q: usize,
    line: &[u8],
    z: Live,
    out: &mut [u8],
    at: usize,
    write: bool,
) -> Option<Acted>
    requires laid_out { LaidOut s.now l }
    requires q_lt_productions { q < l.productions }
    requires line_len_bound { length line.now ≤ most_brackets }
    requires at_bound { at ≤ 2 ^ 59 }
    requires count_bound { z.count ≤ 2 ^ 63 }
    requires well_formed { WellFormed s.now }
    ensures { (b : List ℕ) → BracketsAs s.now q line.now (full z b) (record { write = write; lent = out.old; at = at }) (seen_if result b) out.new }
{
    let top = z.top;
    let mut to = at;
    let mut n = top.open;
    let mut sets = top.saved;
    let values = z.values;
    let mut env = Env {
        values: values,
        echo: z.echo,
    };
    for &c in line {
        let j = slot(c, n, z.depth);
        if Frame::SETS <= j {
            return None;
        }
        let old = sets[j];
        let kept = old.values;
        let done = perform(
            s,
            l,
            q,
            (c / 2) as usize,
            c % 2 == 1,
            kept,
            env,
            out,
            to,
            write,
        )?;
        to = done.at;
        let after = done.env;
        let given = after.values;
        if c % 2 == 0 {
            sets[j] = Saved {
                values: given,
                echo: env.echo,
            };
            n = n + 1;
            env = after;
        } else {
            n = n - 1;
            env = Env {
                values: given,
                echo: old.echo,
            };
        }
    }
    Some(Acted {
        at: to,
        live: standing(z, line.len(), env, n, sets),
    })
}
