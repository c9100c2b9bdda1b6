// The ink of a program beside a reader of rules: what a token makes of it, wherever the reader stands.

#![tactic(auto)]

ghost use Rattle.inks.specs.Held.{Trim};
ghost use Rattle.turns_ink.specs.Turned.{InkTurned};

use inks::Ink;

// reads says that a program is being read, second that it is for the second visit; place is the number of the tag or the string that the token is.
pub fn turn_ink(i: Ink, kind: usize, number: usize, place: usize, reads: bool, second: bool) -> Ink
    requires { Trim i }
    ensures { InkTurned i kind number place reads second result }
{
    if reads {
        if kind < 6 {
            return i.put(kind, number, second);
        }
        if kind < 10 {
            return i.item(kind, place, number);
        }
        if kind == 28 {
            return i;
        }
        return i.put(kind, number, second);
    }
    Ink::fresh()
}
