// The program that a field of a sheet names as text, into lent memory from an offset on. A dry run only counts.

#![tactic(auto)]

ghost use Rattle.std.specs.Prelude.{◌+◌, ◌≤◌};
ghost use Rattle.output.specs.Reach.{farthest};
ghost use Rattle.layout.specs.LaidOut.{LaidOut};
ghost use Rattle.visits.specs.Written.{Written};
ghost use Rattle.asides.specs.Asides.{most_of_an_aside, FieldText};

use layout::Layout;

// A field that names no program.
pub const NONE: usize = 65535;

// Writes the program that a field of the sheet s names, with a space behind it or, where it does not stand in front, before it.
pub fn put_field(
    s: &[u8],
    l: Layout,
    field: usize,
    in_front: bool,
    out: &mut [u8],
    at: usize,
    write: bool,
) -> usize
    requires laid_out { LaidOut s.now l }
    requires most_of_an_aside_bound { at + most_of_an_aside ≤ farthest }
    ensures { Written most_of_an_aside (FieldText s.now field in_front) (record { write = write; lent = out.old; at = at }) result out.new }
{
    if field == NONE {
        return at;
    }
    let a = l.programs_at;
    let b = a + l.programs;
    let c = l.strings_at;
    let d = c + l.strings;
    let section = &s[a..b];
    let strings = &s[c..d];
    if in_front {
        let to = passages::put_program(section, field, s, strings, out, at, write);
        return lent::put_bytes(out, to, b" ", write);
    }
    let from = lent::put_bytes(out, at, b" ", write);
    passages::put_program(section, field, s, strings, out, from, write)
}
