// Whether a state handed in fits a sheet: number 29.

#![tactic(auto)]

ghost use Rattle.std.specs.Prelude.{◌≡◌, false, ◌+◌, ◌≤◌, ◌<◌, take};
ghost use Rattle.tells.specs.Tells.{Tells};
ghost use Rattle.layout.specs.LaidOut.{LaidOut};
ghost use Rattle.programs.specs.Limits.{Value};
ghost use Rattle.trees.specs.Trees.{Trees};
ghost use Rattle.trees.specs.Parsed.{RunsInside};
ghost use Rattle.trees.specs.Tally.{TreeIn};
ghost use Rattle.sheet.specs.Defect.{WellFormed};
ghost use Rattle.runs.specs.Machine.{most};
ghost use Rattle.state.specs.Bounds.{most_sets};
ghost use Rattle.state.specs.Bytes.{state_from};
ghost use Rattle.state.specs.Meaning.{Every};
ghost use Rattle.fit.specs.Fit.{SetFits, ClosingFits};
ghost use Rattle.fit.specs.Tests.{AtomWalked, AroundOf, WalkedAs, SpotIs, FrameTold, FramesTold, FitTold};

use layout::{Layout, argument_of, first_node_of, kind_of, node_count_of, nonterminal_of};
use state::bytes::{frame_at, heading_at};
use state::{Frame, Saved, State};

// Where no element can be open: no byte is this nonterminal.
const NO_CHILD: usize = 256;

// A place of an expression: whether the expression has it, the nonterminal that an element open there is of, and how many nodes are open.
#[derive(Clone, Copy)]
pub struct Spot {
    pub there: bool,
    pub child: usize,
    pub open: usize,
}

// What a walk over a tree found, the node past the tree, and the atom past its atoms.
#[derive(Clone, Copy)]
pub struct Walked {
    pub spot: Spot,
    pub next: usize,
    pub atom: usize,
}

// Whether an open element fits, and the child that its place can have.
#[derive(Clone, Copy)]
pub struct Fitted {
    pub ok: bool,
    pub child: usize,
}

// An atom, which may be the one that is looked for; or the empty node, which is none.
fn leaf(there: bool, child: usize, next: usize, atom: usize) -> Walked
    ensures { AtomWalked there child next atom result }
{
    let spot = Spot {
        there: there,
        child: child,
        open: 1,
    };
    Walked {
        spot: spot,
        next: next,
        atom: atom,
    }
}

// One more node around what was found.
fn around(inner: Spot, next: usize, atom: usize) -> Walked
    requires { inner.«open» ≤ 256 }
    ensures { AroundOf inner next atom result }
{
    let spot = Spot {
        there: inner.there,
        child: inner.child,
        open: inner.open + 1,
    };
    Walked {
        spot: spot,
        next: next,
        atom: atom,
    }
}

// Looks for atom p in the tree at node `at`, of at most `left` nodes, whose first atom is j.
fn walk(s: &[u8], l: Layout, p: usize, at: usize, left: usize, j: usize) -> Walked
    requires laid_out { LaidOut s.now l }
    requires tree_in { TreeIn s.now at left j }
    ensures { WalkedAs s.now p at j result }
{
    let kind = kind_of(s, l, at);
    if kind > 5 {
        return leaf(false, NO_CHILD, at + 1, j);
    }
    if kind == 1 {
        let child = argument_of(s, l, at);
        return leaf(p == j, child, at + 1, j + 1);
    }
    if kind == 2 {
        return leaf(p == j, NO_CHILD, at + 1, j + 1);
    }
    let first = walk(s, l, p, at + 1, left - 1, j);
    let one = first.spot;
    let middle = first.next;
    let atom = first.atom;
    if kind == 5 {
        return around(one, middle, atom);
    }
    let second = walk(s, l, p, middle, left - 1, atom);
    let two = second.spot;
    if p < atom {
        return around(one, second.next, second.atom);
    }
    around(two, second.next, second.atom)
}

// What is at the place p of production q.
fn spot_of(s: &[u8], l: Layout, q: usize, p: usize) -> Spot
    requires laid_out { LaidOut s.now l }
    requires runs_inside { RunsInside s.now }
    requires trees { Trees s.now }
    requires q_lt_productions { q < l.productions }
    ensures { SpotIs s.now q p result }
{
    if p == 0 {
        return Spot {
            there: true,
            child: NO_CHILD,
            open: 0,
        };
    }
    let nodes = node_count_of(s, l, q);
    if nodes == 0 {
        return Spot {
            there: false,
            child: NO_CHILD,
            open: 0,
        };
    }
    let first = first_node_of(s, l, q);
    let found = walk(s, l, p, first, nodes, 1);
    found.spot
}

// Whether no value is over the highest.
fn values_fit(values: [u8; State::ATTRIBUTES]) -> bool
    ensures { Tells (Every Value values) result }
{
    values.iter().all(|value| *value <= State::HIGHEST)
}

// Whether the values of the first n sets fit.
fn sets_fit(sets: [Saved; Frame::SETS], n: usize) -> bool
    requires { n ≤ most_sets }
    ensures { Tells (Every SetFits (take n sets)) result }
{
    for set in &sets[..n] {
        if !values_fit(set.values) {
            return false;
        }
    }
    true
}

fn unfit() -> Fitted
    ensures { result.ok ≡ false }
{
    Fitted {
        ok: false,
        child: NO_CHILD,
    }
}

// Whether an open element fits where the child `may` can be: production, place, sets in use, and their values.
fn frame_fits(s: &[u8], l: Layout, may: usize, f: Frame) -> Fitted
    requires laid_out { LaidOut s.now l }
    requires runs_inside { RunsInside s.now }
    requires trees { Trees s.now }
    ensures { FrameTold s.now may f result }
{
    let q = f.production as usize;
    if l.productions <= q {
        return unfit();
    }
    if nonterminal_of(s, l, q) != may {
        return unfit();
    }
    let spot = spot_of(s, l, q, f.place as usize);
    if !spot.there {
        return unfit();
    }
    let open = f.open as usize;
    if open != spot.open + 1 {
        return unfit();
    }
    let sets = f.saved;
    if !sets_fit(sets, open) {
        return unfit();
    }
    Fitted {
        ok: true,
        child: spot.child,
    }
}

// Whether the first n frames of the state that bytes are fit, the root's first. Each is read where it lies.
fn frames_fit(s: &[u8], l: Layout, state: &[u8], n: usize) -> bool
    requires laid_out { LaidOut s.now l }
    requires runs_inside { RunsInside s.now }
    requires trees { Trees s.now }
    requires n_le_most { n ≤ most }
    ensures { FramesTold s.now (take n (state_from state.now).frames) result }
{
    let mut may = l.start;
    for i in 0..n {
        let f = frame_at(state, State::HEAD + Frame::BYTES * i);
        let fitted = frame_fits(s, l, may, f);
        if !fitted.ok {
            return false;
        }
        may = fitted.child;
    }
    true
}

// Whether a closing number is one, or says that the state is not closed.
fn closing_fits(number: u8) -> bool
    ensures { Tells (ClosingFits number) result }
{
    if number == State::OPEN {
        return true;
    }
    if number == 0 {
        return true;
    }
    if number == 30 {
        return true;
    }
    if number < 20 {
        return false;
    }
    number <= 27
}

// Number 29: whether the state that bytes are fits a well-formed sheet.
pub fn state_fits(s: &[u8], l: Layout, state: &[u8]) -> bool
    requires laid_out { LaidOut s.now l }
    requires well_formed { WellFormed s.now }
    ensures { FitTold s.now (state_from state.now) result }
{
    let h = heading_at(state);
    let depth = h.depth;
    if State::DEPTH < depth {
        return false;
    }
    if !closing_fits(h.closed) {
        return false;
    }
    if State::MOST_VISITS < h.count {
        return false;
    }
    let values = h.values;
    if !values_fit(values) {
        return false;
    }
    frames_fit(s, l, state, depth)
}
