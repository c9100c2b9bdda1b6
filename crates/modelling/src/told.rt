// What is said of declarations whose rules were printed: that they pass; or by name and line what is to be mended.
ghost use Rattle.std.specs.Prelude.{◌≤◌, length};

use crate::names::{
    Word, all_names, begins_several, declaration, is_declared, is_new, is_own, is_same,
    names_behind, no_name, tell_name,
};
use places::Place;
use std::num::wrapping_add_usize;
use words::{STDERR_FILENO, tell, tell_number};

// The rule by which the content of an element is read in one way, as a list of faults has it.
const RULE_S: u8 = 9;

pub(crate) fn complain(text: &[u8]) {
    tell(STDERR_FILENO, text);
}

fn complain_number(n: usize) {
    tell_number(STDERR_FILENO, n);
}

// An element by its tag.
fn tell_element(text: &[u8], w: Word)
    requires from_le_to { w.from ≤ w.to }
    requires to_in_bounds { w.to ≤ length text.now }
{
    complain(b"<");
    tell_name(STDERR_FILENO, text, w);
    complain(b">");
}

// The line that a name stands in.
fn tell_line_of(text: &[u8], w: Word)
    requires from_le_to { w.from ≤ w.to }
    requires to_in_bounds { w.to ≤ length text.now }
{
    let at = w.from;
    let place = Place::behind(&text[0..at]);
    complain(b"line ");
    io::print_decimal(STDERR_FILENO, place.line);
}

// What stands between one of several and the next.
fn tell_joint(some: bool, joint: &[u8]) {
    if some {
        complain(joint);
    }
}

// How many declarations there are.
fn declarations(text: &[u8]) -> usize {
    all_names(text).filter(|w| is_own(*w)).count()
}

fn tell_passes(text: &[u8]) {
    let n = declarations(text);
    complain_number(n);
    if n == 1 {
        complain(b" declaration");
    } else {
        complain(b" declarations");
    }
    complain(
        b", printed as rules that pass. They echo and print nothing yet: add {ECHO} before the first tag to keep everything, and see examples/README.md.\n",
    );
}

// An element that is not declared, with its nonterminal: it has no tag in the rules, so they alone do not tell its name.
fn tell_missing(text: &[u8], w: Word, number: usize)
    requires from_le_to { w.from ≤ w.to }
    requires to_in_bounds { w.to ≤ length text.now }
{
    complain(b"n");
    complain_number(number);
    complain(b" is ");
    tell_element(text, w);
}

// What to write for an element that is not declared.
fn tell_remedy(text: &[u8], w: Word, number: usize)
    requires from_le_to { w.from ≤ w.to }
    requires to_in_bounds { w.to ≤ length text.now }
{
    complain(b"Declare each of them in the DTD, as <!ELEMENT ");
    tell_name(STDERR_FILENO, text, w);
    complain(b" (#PCDATA)> for one that holds text, or add a production to the rules, as n");
    complain_number(number);
    complain(b" ::= ");
    tell_name(STDERR_FILENO, text, w);
    complain(b"(CHAR*)\n");
}

// An element that is not declared, and its nonterminal: these are numbered as the names are first mentioned.
#[derive(Clone, Copy)]
struct Missing {
    word: Word,
    number: usize,
}

// The first element that is not declared.
fn first_missing(text: &[u8]) -> Missing
    ensures from_le_to { result.word.from ≤ result.word.to }
    ensures to_in_bounds { result.word.to ≤ length text.now }
{
    let mut number = 0;
    for w in all_names(text) {
        if is_new(text, w) {
            if !is_declared(text, w) {
                return Missing {
                    word: w,
                    number: number,
                };
            }
            number = wrapping_add_usize(number, 1);
        }
    }
    Missing {
        word: no_name(text),
        number: number,
    }
}

// Those behind the first.
fn tell_other_missing(text: &[u8], first: Word, before: usize)
    requires { first.to ≤ length text.now }
{
    let mut number = before;
    for w in names_behind(text, first) {
        if is_new(text, w) {
            number = wrapping_add_usize(number, 1);
            if !is_declared(text, w) {
                complain(b", ");
                tell_missing(text, w, number);
            }
        }
    }
}

fn tell_undeclared(text: &[u8]) {
    complain(
        b"Elements that a declaration names are not declared, so their rules have no production: ",
    );
    let first = first_missing(text);
    let w = first.word;
    let number = first.number;
    tell_missing(text, w, number);
    tell_other_missing(text, w, number);
    complain(b".\n");
    tell_remedy(text, w, number);
    complain(b"The rules were printed, so that they can be mended.\n");
}

// An element that is declared more than once, with the lines of its declarations.
fn tell_several(text: &[u8], w: Word)
    requires from_le_to { w.from ≤ w.to }
    requires to_in_bounds { w.to ≤ length text.now }
{
    tell_element(text, w);
    complain(b", at ");
    tell_line_of(text, w);
    for e in names_behind(text, w) {
        if is_own(e) & is_same(text, e, w) {
            complain(b" and ");
            tell_line_of(text, e);
        }
    }
}

fn tell_repeated(text: &[u8]) {
    complain(b"An element is declared more than once: ");
    let mut some = false;
    for w in all_names(text) {
        if is_own(w) & begins_several(text, w) {
            tell_joint(some, b"; ");
            tell_several(text, w);
            some = true;
        }
    }
    complain(b". Keep one of its declarations.\n");
}

// The production that an entry of a list of faults names, where it is of rule S.
fn production_in(entry: &[u8]) -> Option<u8> {
    match entry {
        [rule, production, ..] if *rule == RULE_S => Some(*production),
        _ => None,
    }
}

// The element of a production, which is the declaration behind as many.
fn tell_declaration(text: &[u8], q: u8) {
    let w = declaration(text, q as usize);
    tell_element(text, w);
    complain(b" (");
    tell_line_of(text, w);
    complain(b")");
}

// The elements of the first `count` faults of a list that are of rule S.
fn tell_elements(text: &[u8], list: &[u8], count: usize) {
    let mut some = false;
    let mut before = None;
    for entry in list.chunks_exact(4).take(count) {
        let here = production_in(entry);
        if here != before {
            if let Some(production) = here {
                tell_joint(some, b", ");
                tell_declaration(text, production);
                some = true;
            }
        }
        before = here;
    }
}

// Models that could be read in two ways, and others that take the same.
fn tell_remedies() {
    complain(
        b"Write the model so that one way is left. It takes the same schedules if it is written as on the right:\n",
    );
    complain(b"  (a*)?   (a?)*   (a*)+   (a?)+   (a+)*      (a*)\n");
    complain(b"  (a+)+                                      (a+)\n");
    complain(b"  (a?,b?)?                                   (a?,b?)\n");
    complain(b"  (a*,b*)*   (a?,b?)*   (a+|b)*              (a|b)*\n");
    complain(b"  (a?|b?)                                    (a|b)?\n");
    complain(b"  (a*|b*)                                    (a+|b+)?\n");
    complain(b"  (a*,a)                                     (a+)\n");
    complain(b"  (a?,a)                                     (a,a?)\n");
    complain(b"  ((a,b)|(a,c))                              (a,(b|c))\n");
    complain(b"  (#PCDATA|a|a)*                             (#PCDATA|a)*\n");
}

fn tell_ambiguous(text: &[u8], list: &[u8], count: usize) {
    complain(b"The content of some elements could be read in two ways: ");
    tell_elements(text, list, count);
    complain(
        b". XML 1.0 may allow them; the rules cannot, since the listing could come out in two ways.\n",
    );
    tell_remedies();
}

// What is said of declarations by the number of the sheet that they are, and its faults.
pub(crate) fn tell_verdict(path: &[u8], text: &[u8], number: u8, list: &[u8], count: usize) {
    complain(path);
    if number == 0 {
        complain(b": ");
        tell_passes(text);
        return;
    }
    complain(b": number ");
    complain_number(number as usize);
    complain(b".\n");
    if number == 7 {
        tell_undeclared(text);
        return;
    }
    if number == 8 {
        tell_repeated(text);
    } else {
        tell_ambiguous(text, list, count);
    }
    complain(
        b"The rules were printed, so that they can be mended; wickpollen check lists every place of them.\n",
    );
}
