// Why a fault is one: the first two bracket strings from a place to a next symbol, and the sign at which they part.

#![tactic(auto)]

ghost use Rattle.std.specs.Prelude.{◌≡◌, [], ℕ, suc, ◌*◌, ◌≤◌, ◌<◌};
ghost use Rattle.layout.specs.LaidOut.{LaidOut};
ghost use Rattle.layout.specs.Records.{node_count_of};
ghost use Rattle.trees.specs.Trees.{Trees};
ghost use Rattle.trees.specs.Parsed.{RunsInside};
ghost use Rattle.ways.specs.Spot.{SpotIn};
ghost use Rattle.parting.specs.Firsts.{no_string, one_string};
ghost use Rattle.witness.specs.Held.{HoldsWithin, BracketIs, JoinedAs, WhenIs, OpenedAs, ClosedAs, EitherAs, BothAs, GoesRoundAs};
ghost use Rattle.witness.specs.Walks.{FirstsThrough, FirstsInto, FirstsOutOf, FirstsAcross, ToEnd, ToAtom, FirstsAre};
ghost use Rattle.witness.specs.Answers.{SignAt, SignIs, SignBetween, NoWitness, WitnessAs};

use layout::{Layout, argument_of, first_node_of, kind_of, layout_of, node_count_of};
use sheet::defect;
use trees::Symbol;
use ways::{Spot, atom_can, part, parts_of};

// The most brackets of a string here: six for each of a production's nodes.
pub const LONGEST: usize = 192;

// A bracket string: opening i is the byte 2 * i, closing i is 2 * i + 1.
#[derive(Clone, Copy)]
pub struct Row {
    pub length: usize,
    pub bytes: [u8; 192],
}

// No string, the only one, or the first two.
#[derive(Clone, Copy)]
pub struct Pair {
    pub count: usize,
    pub first: Row,
    pub second: Row,
}

fn empty_row() -> Row
    ensures { result.length ≡ 0 }
{
    Row {
        length: 0,
        bytes: [0u8; LONGEST],
    }
}

// Both rows are empty: the count says whether that is a string.
fn empties(count: usize) -> Pair
    ensures { (result.count ≡ count) × (result.first.length ≡ 0) × (result.second.length ≡ 0) }
{
    let row = empty_row();
    Pair {
        count: count,
        first: row,
        second: row,
    }
}

fn nothing() -> Pair
    ensures { HoldsWithin 0 0 no_string result }
{
    empties(0)
}

// The empty string alone.
fn just_empty() -> Pair
    ensures { HoldsWithin 0 0 (one_string []) result }
{
    empties(1)
}

fn when(there: bool) -> Pair
    ensures { WhenIs there result }
{
    if there {
        return just_empty();
    }
    nothing()
}

// One bracket, by its byte.
fn bracket(b: usize) -> Row
    requires { b < 256 }
    ensures { BracketIs b result }
{
    let mut bytes = [0u8; LONGEST];
    bytes[0] = b as u8;
    Row {
        length: 1,
        bytes: bytes,
    }
}

// One string and then another; the first alone where there is no room, which no walk below comes to.
fn joined(a: Row, b: Row) -> Row
    ensures { JoinedAs a b result }
{
    let n = a.length;
    let m = b.length;
    if m > LONGEST {
        return a;
    }
    if n > LONGEST - m {
        return a;
    }
    let mut bytes = a.bytes;
    let more = b.bytes;
    let end = lent::put_bytes(&mut bytes, n, &more[..m], true);
    Row {
        length: end,
        bytes: bytes,
    }
}

fn opened(i: usize, f: Pair) -> Pair
    requires { i < 128 }
    ensures { OpenedAs i f result }
{
    let c = bracket(2 * i);
    let a = f.first;
    let b = f.second;
    let first = joined(c, a);
    let second = joined(c, b);
    Pair {
        count: f.count,
        first: first,
        second: second,
    }
}

fn closed(i: usize, f: Pair) -> Pair
    requires { i < 127 }
    ensures { ClosedAs i f result }
{
    let c = bracket(2 * i + 1);
    let a = f.first;
    let b = f.second;
    let first = joined(a, c);
    let second = joined(b, c);
    Pair {
        count: f.count,
        first: first,
        second: second,
    }
}

// The strings of f, then those of g.
fn either(f: Pair, g: Pair) -> Pair
    ensures { EitherAs f g result }
{
    if f.count == 0 {
        return g;
    }
    if f.count > 1 {
        return f;
    }
    if g.count == 0 {
        return f;
    }
    let a = f.first;
    let c = g.first;
    Pair {
        count: 2,
        first: a,
        second: c,
    }
}

// A string of f and then one of g.
fn both(f: Pair, g: Pair) -> Pair
    ensures { BothAs f g result }
{
    if f.count == 0 {
        return nothing();
    }
    if g.count == 0 {
        return nothing();
    }
    let a = f.first;
    let c = g.first;
    let first = joined(a, c);
    if g.count == 1 {
        let b = f.second;
        let second = joined(b, c);
        return Pair {
            count: f.count,
            first: first,
            second: second,
        };
    }
    let d = g.second;
    let second = joined(a, d);
    Pair {
        count: 2,
        first: first,
        second: second,
    }
}

// Any number of turns of f, and then a string of g: no turn, or one more.
fn turned(f: Pair, g: Pair) -> Pair
    ensures { GoesRoundAs f g result }
{
    if f.count == 0 {
        return g;
    }
    if g.count != 1 {
        return g;
    }
    let a = f.first;
    let c = g.first;
    let again = joined(a, c);
    Pair {
        count: 2,
        first: c,
        second: again,
    }
}

// From the start of the tree at t to its end.
fn through(s: &[u8], l: Layout, t: Spot) -> Pair
    requires laid_out { LaidOut s.now l }
    requires spot_in { SpotIn s.now t }
    ensures { FirstsThrough s.now t result }
{
    let kind = kind_of(s, l, t.node);
    let i = t.bracket;
    if kind > 5 {
        let empty = just_empty();
        let shut = closed(i, empty);
        return opened(i, shut);
    }
    if kind < 3 {
        return nothing();
    }
    if kind > 4 {
        let only = part(t);
        let f = through(s, l, only);
        let empty = just_empty();
        let turns = turned(f, empty);
        let shut = closed(i, turns);
        return opened(i, shut);
    }
    let two = parts_of(s, l, t);
    let first = two.first;
    let second = two.second;
    let f = through(s, l, first);
    let g = through(s, l, second);
    if kind == 3 {
        let joint = both(f, g);
        let shut = closed(i, joint);
        return opened(i, shut);
    }
    let any = either(f, g);
    let shut = closed(i, any);
    opened(i, shut)
}

// From the start of the tree at t to an atom that can be x.
fn into(s: &[u8], l: Layout, t: Spot, x: Symbol) -> Pair
    requires laid_out { LaidOut s.now l }
    requires spot_in { SpotIn s.now t }
    ensures { FirstsInto s.now t x result }
{
    let kind = kind_of(s, l, t.node);
    let i = t.bracket;
    if kind > 5 {
        return nothing();
    }
    if kind < 3 {
        let n = argument_of(s, l, t.node);
        let can = atom_can(s, l, kind, n, x);
        let here = when(can);
        return opened(i, here);
    }
    if kind > 4 {
        let only = part(t);
        let f = through(s, l, only);
        let g = into(s, l, only, x);
        let turns = turned(f, g);
        return opened(i, turns);
    }
    let two = parts_of(s, l, t);
    let first = two.first;
    let second = two.second;
    let f = into(s, l, first, x);
    let g = into(s, l, second, x);
    if kind == 3 {
        let h = through(s, l, first);
        let joint = both(h, g);
        let any = either(f, joint);
        return opened(i, any);
    }
    let any = either(f, g);
    opened(i, any)
}

// From just after atom p of the tree at t to its end.
fn out_of(s: &[u8], l: Layout, t: Spot, p: usize) -> Pair
    requires laid_out { LaidOut s.now l }
    requires spot_in { SpotIn s.now t }
    ensures { FirstsOutOf s.now t p result }
{
    let kind = kind_of(s, l, t.node);
    let i = t.bracket;
    if kind > 5 {
        return nothing();
    }
    if kind < 3 {
        let here = when(p == t.atom);
        return closed(i, here);
    }
    if kind > 4 {
        let only = part(t);
        let f = out_of(s, l, only, p);
        let h = through(s, l, only);
        let empty = just_empty();
        let turns = turned(h, empty);
        let joint = both(f, turns);
        return closed(i, joint);
    }
    let two = parts_of(s, l, t);
    let first = two.first;
    let second = two.second;
    let f = out_of(s, l, first, p);
    let g = out_of(s, l, second, p);
    if kind == 3 {
        let h = through(s, l, second);
        let joint = both(f, h);
        let any = either(joint, g);
        return closed(i, any);
    }
    let any = either(f, g);
    closed(i, any)
}

// From just after atom p of the tree at t to an atom that can be x.
fn across(s: &[u8], l: Layout, t: Spot, p: usize, x: Symbol) -> Pair
    requires laid_out { LaidOut s.now l }
    requires spot_in { SpotIn s.now t }
    ensures { FirstsAcross s.now t p x result }
{
    let kind = kind_of(s, l, t.node);
    if kind > 5 {
        return nothing();
    }
    if kind < 3 {
        return nothing();
    }
    if kind > 4 {
        let only = part(t);
        let f = across(s, l, only, p, x);
        let o = out_of(s, l, only, p);
        let h = through(s, l, only);
        let n = into(s, l, only, x);
        let turns = turned(h, n);
        let joint = both(o, turns);
        return either(f, joint);
    }
    let two = parts_of(s, l, t);
    let first = two.first;
    let second = two.second;
    let f = across(s, l, first, p, x);
    let g = across(s, l, second, p, x);
    if kind == 3 {
        let o = out_of(s, l, first, p);
        let n = into(s, l, second, x);
        let joint = both(o, n);
        let any = either(f, joint);
        return either(any, g);
    }
    either(f, g)
}

// From the place p of production q to its end.
fn to_end(s: &[u8], l: Layout, q: usize, p: usize) -> Pair
    requires laid_out { LaidOut s.now l }
    requires runs_inside { RunsInside s.now }
    requires trees { Trees s.now }
    requires q_lt_productions { q < l.productions }
    requires q_bound { node_count_of s.now q ≤ 32 }
    ensures { ToEnd s.now q p result }
{
    let nodes = node_count_of(s, l, q);
    if nodes == 0 {
        return when(p == 0);
    }
    let first = first_node_of(s, l, q);
    let t = Spot {
        node: first,
        nodes: nodes,
        bracket: 1,
        atom: 1,
    };
    if p == 0 {
        return through(s, l, t);
    }
    out_of(s, l, t, p)
}

// From the place p of production q to its atoms that can be x.
fn to_atom(s: &[u8], l: Layout, q: usize, p: usize, x: Symbol) -> Pair
    requires laid_out { LaidOut s.now l }
    requires runs_inside { RunsInside s.now }
    requires trees { Trees s.now }
    requires q_lt_productions { q < l.productions }
    requires q_bound { node_count_of s.now q ≤ 32 }
    ensures { ToAtom s.now q p x result }
{
    let nodes = node_count_of(s, l, q);
    if nodes == 0 {
        return nothing();
    }
    let first = first_node_of(s, l, q);
    let t = Spot {
        node: first,
        nodes: nodes,
        bracket: 1,
        atom: 1,
    };
    if p == 0 {
        return into(s, l, t, x);
    }
    across(s, l, t, p, x)
}

// From the place p of production q to the symbol x.
fn firsts(s: &[u8], l: Layout, q: usize, p: usize, x: Symbol) -> Pair
    requires laid_out { LaidOut s.now l }
    requires runs_inside { RunsInside s.now }
    requires trees { Trees s.now }
    requires q_lt_productions { q < l.productions }
    requires q_bound { node_count_of s.now q ≤ 32 }
    ensures { FirstsAre s.now q p x result }
{
    match x {
        Symbol::Tag(_) => to_atom(s, l, q, p, x),
        Symbol::Character => to_atom(s, l, q, p, x),
        Symbol::End => to_end(s, l, q, p),
    }
}

// The number of the sign behind which an opening bracket comes first.
fn sign_before(c: u8) -> usize
    ensures { (n : ℕ) → c ≡ 2 * suc n → result ≡ n }
{
    if c < 2 {
        return 0;
    }
    c as usize / 2 - 1
}

// The sign at which two strings part that have the brackets c and d next: a star's closing bracket has its number, and of two opening brackets the
// lower is right behind the union's own.
fn sign_at(c: u8, d: u8) -> usize
    ensures { SignAt c d result }
{
    if c % 2 == 1 {
        return c as usize / 2;
    }
    if d % 2 == 1 {
        return d as usize / 2;
    }
    if c < d {
        return sign_before(c);
    }
    sign_before(d)
}

// The sign at which two strings part.
fn sign_of(a: &[u8], b: &[u8]) -> usize
    ensures { SignIs a.now b.now result }
{
    for (c, d) in a.iter().zip(b) {
        if *c != *d {
            return sign_at(*c, *d);
        }
    }
    0
}

fn sign_between(a: Row, b: Row) -> usize
    ensures { SignBetween a b result }
{
    let n = a.length;
    let m = b.length;
    if n > LONGEST {
        return 0;
    }
    if m > LONGEST {
        return 0;
    }
    let x = a.bytes;
    let y = b.bytes;
    sign_of(&x[..n], &y[..m])
}

// The number of the sheet where it is no sheet, else 9 where there is such a fault and 0 where there is none; with 9 two bracket strings
// and the number of the sign at which they part, else empty strings and 0.
#[derive(Clone, Copy)]
pub struct Reason {
    pub number: u8,
    pub first: Row,
    pub second: Row,
    pub sign: usize,
}

fn no_witness(number: u8) -> Reason
    ensures { NoWitness number result }
{
    let row = empty_row();
    Reason {
        number: number,
        first: row,
        second: row,
        sign: 0,
    }
}

// Why there is a fault of rule S at production q, place p and symbol x.
pub fn witness(sheet: &[u8], q: usize, p: usize, x: Symbol) -> Reason
    ensures { WitnessAs sheet.now q p x result }
{
    let number = defect(sheet);
    if number > 0 {
        return no_witness(number);
    }
    let l = layout_of(sheet);
    if l.productions <= q {
        return no_witness(0);
    }
    let pair = firsts(sheet, l, q, p, x);
    if pair.count < 2 {
        return no_witness(0);
    }
    let first = pair.first;
    let second = pair.second;
    let sign = sign_between(first, second);
    Reason {
        number: 9,
        first: first,
        second: second,
        sign: sign,
    }
}
