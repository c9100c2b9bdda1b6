// The bed of an expression beside a reader of rules: what a token makes of it, wherever the reader stands.

#![tactic(auto)]

ghost use Rattle.turns_bed.specs.Turned.{BedTurned};

use beds::Bed;

// here is 6 where the tag's parenthesis is wanted; reads says that a program is being read, second that it is for the second visit; place is the
// field of the program that the token ends, if it ends one.
pub fn turn_bed(
    b: Bed,
    here: usize,
    kind: usize,
    number: usize,
    place: usize,
    reads: bool,
    second: bool,
) -> Bed
    ensures { BedTurned b here kind number place reads second result }
{
    if reads {
        if kind == 28 {
            return b.unbraced(second, place);
        }
        return b;
    }
    if here == 6 {
        return Bed::fresh();
    }
    b.step(kind, number)
}
