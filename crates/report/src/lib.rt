// What people are told of a rule sheet: whether it passes and every place to mend.

#![tactic(auto)]

mod faults_told;
mod pointing;
mod reasons;

ghost use Rattle.faults.specs.Verdict.{VerdictIs};

use layout::layout_of;
use words::{say, say_number};

// The first line: the sheet by its name, and the number.
fn head(name: &[u8], number: u8, count: usize) {
    say(name);
    say(b": number ");
    say_number(number as usize);
    if count > 0 {
        say(b", faults: ");
        say_number(count);
    }
    say(b".\n");
    words::say_meaning(number as usize);
    say(b"\n");
}

// Every fault of a list, of a sheet that is well-formed where there are any.
fn say_faults(sheet: &[u8], list: &[u8], count: usize, text: &[u8]) {
    if sheet::defect(sheet) > 0 {
        return;
    }
    let l = layout_of(sheet);
    faults_told::say_all(sheet, l, list, count, text);
}

// What was found: the number, the first wrong record, or every nonterminal of a text that has no production; every fault.
fn tell(name: &[u8], sheet: &[u8], text: &[u8], number: u8, count: usize, list: &[u8]) {
    head(name, number, count);
    if (number == 7) & (text.len() > 0) {
        pointing::say_all_missing(text, sheet);
        return;
    }
    wrong::say_place(sheet, number);
    if (number == 8) | (number == 9) {
        say_faults(sheet, list, count, text);
    }
}

// Checks a sheet, says on standard output what was found, and answers the number of the table. The text is the one that was written as the sheet: where its places
// are told. It has no byte where there is none.
pub fn report(name: &[u8], sheet: &[u8], text: &[u8]) -> u8
    ensures { VerdictIs sheet.now result }
{
    let mut list = io::large_buffer();
    let r = faults::check(sheet, &mut list);
    let number = r.number;
    tell(name, sheet, text, number, r.count, &list);
    number
}
