// Every fault of a list, a line for each: where it is, for people, and its four bytes as the paper writes them.
ghost use Rattle.std.specs.Prelude.{◌+◌, ◌<◌, length};
ghost use Rattle.layout.specs.LaidOut.{LaidOut};
ghost use Rattle.trees.specs.Parsed.{RunsInside};

use crate::reasons::say_reason;
use layout::{Layout, byte_at, nonterminal_of, tag_number_of};
use samples::say_example;
use trees::alike;
use whereabouts::{say_place, say_production};
use words::{say, say_expression, say_next, say_number, say_tag};

// Whether production q is of nonterminal m and has tag t.
fn is_alike(s: &[u8], l: Layout, q: usize, m: usize, t: usize) -> bool
    requires laid_out { LaidOut s.now l }
    requires q_lt_productions { q < l.productions }
{
    let nonterminal = nonterminal_of(s, l, q);
    let tag = tag_number_of(s, l, q);
    (nonterminal == m) & (tag == t)
}

// The numbers of the productions of nonterminal m with tag t.
fn say_alike(s: &[u8], l: Layout, m: usize, t: usize)
    requires { LaidOut s.now l }
{
    let mut some = false;
    for q in 0..l.productions {
        if is_alike(s, l, q, m, t) {
            if some {
                say(b", ");
            }
            say_number(q);
            some = true;
        }
    }
}

// Where they stand in a text.
fn say_places_alike(s: &[u8], l: Layout, m: usize, t: usize, text: &[u8])
    requires { LaidOut s.now l }
{
    for q in 0..l.productions {
        if is_alike(s, l, q, m, t) {
            crate::pointing::say_production(text, q);
        }
    }
}

// Rule T's fault of nonterminal m and tag t.
fn say_t_fault(s: &[u8], l: Layout, m: usize, t: usize)
    requires { LaidOut s.now l }
{
    say_number(alike(s, l, m, t));
    say(b" productions of nonterminal ");
    say_number(m);
    say(b" have the tag ");
    say_tag(s, l, t);
    say(b" (productions ");
    say_alike(s, l, m, t);
    say(b"): give all but one another tag");
}

// Rule S's fault at place p of production q, where x is next.
fn say_s_fault(s: &[u8], l: Layout, q: usize, p: usize, x: usize)
    requires laid_out { LaidOut s.now l }
    requires runs_inside { RunsInside s.now }
{
    if q >= l.productions {
        return;
    }
    say_production(s, l, q);
    say(b", ");
    say_place(s, l, q, p);
    say(b", before ");
    say_next(s, l, x);
}

// An entry's bytes, in decimal.
fn say_bytes(rule: usize, first: usize, second: usize, third: usize) {
    say(b" [");
    say_number(rule);
    say(b" ");
    say_number(first);
    say(b" ");
    say_number(second);
    say(b" ");
    say_number(third);
    say(b"]\n");
}

// Before the first fault of rule T.
fn say_about_t() {
    say(
        b"\nProductions that cannot be told apart: nobody could say which of them an element with that tag is.\n",
    );
}

// Before the first fault of rule S.
fn say_about_s() {
    say(
        b"\nPlaces where the same input could be read in two ways, so the listing could come out in two ways.\n",
    );
    say(
        b"A production says what an element may hold. Its atoms are numbered from the left, [1 ..] [2 ..]; n1 is nonterminal 1, and * is\nany number of times. Under each place stand a shortest input from the element's start tag up to it, what could come next there,\nand the sign at which the two ways to read it part. In that input <a>..</a> is an element, whatever it holds; x is any character.\n",
    );
    say(
        b"Change the expression so that one way is left: one change often mends several places. Usual causes: a star over a part\n",
    );
    say(
        b"that can be empty, as (a*)*; neighbours or alternatives that begin alike, as a* then a.\n",
    );
}

// Before the first S fault of production q: its expression, in which the places are found.
fn say_about_production(s: &[u8], l: Layout, q: usize)
    requires laid_out { LaidOut s.now l }
    requires runs_inside { RunsInside s.now }
{
    if q >= l.productions {
        return;
    }
    say(b"\n");
    say_production(s, l, q);
    say(b" holds ");
    say_expression(s, l, q);
    say(b"\n");
}

// Whether the entry at i is the list's first of its rule.
fn starts_rule(list: &[u8], i: usize) -> bool
    requires { i + 3 < length list.now }
{
    if i < 4 {
        return true;
    }
    list[i - 4] != list[i]
}

// Whether the entry at i is the list's first of its rule and production.
fn starts_production(list: &[u8], i: usize) -> bool
    requires { i + 3 < length list.now }
{
    if starts_rule(list, i) {
        return true;
    }
    if i < 4 {
        return true;
    }
    list[i - 3] != list[i + 1]
}

// The entry at i, of rule T.
fn say_t_entry(s: &[u8], l: Layout, list: &[u8], i: usize)
    requires laid_out { LaidOut s.now l }
    requires i_in_bounds { i + 3 < length list.now }
{
    if starts_rule(list, i) {
        say_about_t();
    }
    say(b"- ");
    say_t_fault(s, l, byte_at(list, i + 1), byte_at(list, i + 2));
}

// The entry at i, of rule S.
fn say_s_entry(s: &[u8], l: Layout, list: &[u8], i: usize)
    requires laid_out { LaidOut s.now l }
    requires runs_inside { RunsInside s.now }
    requires i_in_bounds { i + 3 < length list.now }
{
    let q = byte_at(list, i + 1);
    if starts_rule(list, i) {
        say_about_s();
    }
    if starts_production(list, i) {
        say_about_production(s, l, q);
    }
    say(b"- ");
    say_s_fault(s, l, q, byte_at(list, i + 2), byte_at(list, i + 3));
}

// The entry at i, of rules with a text.
fn say_entry(s: &[u8], l: Layout, list: &[u8], i: usize, text: &[u8])
    requires laid_out { LaidOut s.now l }
    requires runs_inside { RunsInside s.now }
    requires i_in_bounds { i + 3 < length list.now }
{
    let rule = byte_at(list, i);
    let first = byte_at(list, i + 1);
    let second = byte_at(list, i + 2);
    let third = byte_at(list, i + 3);
    if rule == 8 {
        say_t_entry(s, l, list, i);
        say_bytes(rule, first, second, third);
        say_places_alike(s, l, first, second, text);
        return;
    }
    say_s_entry(s, l, list, i);
    say_bytes(rule, first, second, third);
    if first < l.productions {
        say_example(s, l, first, second);
        say_reason(s, l, first, second, third, text);
    }
}

// The first `count` entries.
pub(crate) fn say_all(s: &[u8], l: Layout, list: &[u8], count: usize, text: &[u8])
    requires laid_out { LaidOut s.now l }
    requires runs_inside { RunsInside s.now }
{
    for entry in 0..count.min(list.len() / 4) {
        say_entry(s, l, list, 4 * entry, text);
    }
}
