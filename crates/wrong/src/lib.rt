// Which record of a sheet is the first wrong one, where the sheet's number is 2 to 7. The number is the proved test's; this only looks for the
// place to mend, in bytes of any sort, and says nothing where it finds none.

#![tactic(auto)]

mod nodes;
mod productions;
mod programs_told;
mod tags;
mod trailer;

ghost use Rattle.std.specs.Prelude.{◌≡◌, ◌<◌};
ghost use Rattle.layout.specs.Layout.{byte_at};
ghost use Rattle.wrong.specs.Read.{ByteAsRead, WordAsRead};

pub use nodes::is_produced;
pub use trailer::field_of;
use words::{say, say_number};

// What a sheet can have at most: no offset in it is larger.
const LONGEST: usize = 27928;

// A byte of the sheet; 0 where there is none.
pub fn byte(s: &[u8], i: usize) -> u8
    ensures { result ≡ byte_at s.now i }
{
    if i < s.len() { s[i] } else { 0 }
}

// A byte as a number.
pub fn small(s: &[u8], i: usize) -> usize
    ensures { ByteAsRead s.now i result }
{
    byte(s, i) as usize
}

// Two bytes as a number, the lower first.
pub fn word(s: &[u8], i: usize) -> usize
    requires { i < 2000000 }
    ensures { WordAsRead s.now i result }
{
    small(s, i) + 256 * small(s, i + 1)
}

// Some text and a number behind it.
fn say_then(text: &[u8], number: usize) {
    say(text);
    say_number(number);
}

// A record by its name, its number and its first byte.
fn say_record(name: &[u8], number: usize, at: usize) {
    say(b"The first wrong one is ");
    say(name);
    say_then(b" ", number);
    say_then(b", from byte ", at);
    say(b" of the file on (both counted from 0).\n");
}

// Where to mend a sheet that has this number.
pub fn say_place(s: &[u8], number: u8) {
    match number {
        2 => trailer::say_trailer(s),
        3 => tags::say_tag(s),
        4 => productions::say_production(s),
        5 => nodes::say_expression(s),
        6 => programs_told::say_program(s),
        7 => nodes::say_missing(s),
        _ => (),
    }
}
