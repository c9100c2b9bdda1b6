// What lies ahead of a run: whether it is steady, tried by a character that is not there, and the stretch that it can then take at once.

#![tactic(auto)]

ghost use Rattle.std.specs.Prelude.{◌≡◌, true, ℕ, ◌≤◌, length, take, List};
ghost use Rattle.runs.specs.Visits.{most_visits};
ghost use Rattle.state.specs.Bounds.{most_sets};
ghost use Rattle.live.specs.Live.{full};
ghost use Rattle.layout.specs.LaidOut.{LaidOut};
ghost use Rattle.steady.specs.Steady.{shown};
ghost use Rattle.steps.specs.Parts.{ReadyAt};
ghost use Rattle.ahead.specs.Ahead.{SameFrame, SameState, ProbedAs, OnwardAs};

use layout::Layout;
use live::Live;
use state::{Frame, Saved};
use steps::Run;
use stretches::{Stretch, blanks, characters};

// The character that is tried: an x, which is written as one byte.
const TRIED: u32 = 120;

// The byte that a tag starts with.
const OPENS: u8 = 60;

fn same_set(a: Saved, b: Saved) -> bool
    ensures { result ≡ true → a ≡ b }
{
    a.echo == b.echo && a.values == b.values
}

// Whether the first n sets are the same.
fn same_sets(a: [Saved; Frame::SETS], b: [Saved; Frame::SETS], n: usize) -> bool
    requires { n ≤ most_sets }
    ensures { result ≡ true → take n a ≡ take n b }
{
    for i in 0..n {
        if !same_set(a[i], b[i]) {
            return false;
        }
    }
    true
}

// Whether two elements are the same, as far as their sets are in use.
fn same_frame(f: Frame, g: Frame) -> bool
    ensures { result ≡ true → SameFrame f g }
{
    if f.production != g.production {
        return false;
    }
    if f.place != g.place {
        return false;
    }
    if f.open != g.open {
        return false;
    }
    let n = f.open as usize;
    if Frame::SETS < n {
        return false;
    }
    let x = f.saved;
    let y = g.saved;
    same_sets(x, y, n)
}

// Whether attributes, echo and the innermost element are the same.
fn same_state(z: Live, y: Live) -> bool
    ensures { result ≡ true → (b : List ℕ) → SameState (full z b) (full y b) }
{
    if z.echo != y.echo {
        return false;
    }
    z.values == y.values && same_frame(z.top(), y.top())
}

// Bytes that the tried character is written as.
fn width(on: bool) -> usize
    ensures { result ≡ length (shown on 120) }
{
    if on { 1 } else { 0 }
}

// How many visits each character counts in a run that is steady, where it stands in an element with characters: a character tried in a dry run leaves it as it is. At the
// element's start none does, as it leads to an atom.
fn probe(s: &[u8], l: Layout, z: Live, stack: &[u8], out: &mut [u8]) -> Option<u64>
    requires laid_out { LaidOut s.now l }
    requires ready_at { ReadyAt s.now z stack.now }
    requires count_le_most_visits { z.count ≤ most_visits }
    ensures probed_as { ProbedAs s.now (full z stack.now) result }
    ensures out_unchanged { out.new ≡ out.old }
{
    let f = z.top();
    if f.place == 0 {
        return None;
    }
    let run = Run { at: 0, live: z };
    let tried = run.character(s, l, TRIED, stack, out, false);
    if tried.number != 0 {
        return None;
    }
    if tried.at != width(z.echo) {
        return None;
    }
    let y = tried.live;
    if y.count < z.count {
        return None;
    }
    if !same_state(z, y) {
        return None;
    }
    Some(y.count - z.count)
}

// The stretch from a place on that needs no step for each of its characters: white space where it is no event, characters where the run is steady.
pub fn onward(
    s: &[u8],
    l: Layout,
    run: Run,
    part: &[u8],
    from: usize,
    stack: &[u8],
    out: &mut [u8],
) -> Stretch
    requires laid_out { LaidOut s.now l }
    requires ready_at { ReadyAt s.now run.live stack.now }
    requires from_in_bounds { from ≤ length part.now }
    requires at_in_bounds { run.at ≤ length out.old }
    requires count_le_most_visits { run.live.count ≤ most_visits }
    ensures { OnwardAs s.now part.now (full run.live stack.now) out.old from run.at result out.new }
{
    let z = run.live;
    let put = run.at;
    let n = z.count;
    let still = Stretch {
        at: from,
        put: put,
        count: n,
    };
    if part.len() == from {
        return still;
    }
    if part[from] == OPENS {
        return still;
    }
    if run.passes(s, l, stack) {
        return Stretch {
            at: blanks(part, from),
            put: put,
            count: n,
        };
    }
    let Some(visits) = probe(s, l, z, stack, out) else {
        return still;
    };
    characters(part, from, z.echo, visits, n, out, put)
}
