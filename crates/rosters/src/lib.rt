// The names of declarations while they are read: a store of those mentioned, with the number of the last one.

#![tactic(auto)]

ghost use Rattle.rosters.specs.Rosters.{Enrolling, Enrolled};

// The number of a name for which there was no room. No Option: it is the name's place all the same, behind all 64 of the store, and is laid in nodes.
pub const NONE: usize = 64;

// How many names a store has, whether one had no room, and the number of the one that was filed last. The flag stands for all names so far; the count
// and the number are read whatever it says.
#[derive(Clone, Copy)]
pub struct Roster {
    pub count: usize,
    pub full: bool,
    pub number: usize,
}

// Files a name: its number is its place among the names of the store.
pub fn enrol(bytes: &mut [u8], ends: &mut [usize], r: Roster, x: &[u8]) -> Roster
    requires { Enrolling bytes.old ends.old r }
    ensures { Enrolled bytes.old ends.old r x.now bytes.new ends.new result }
{
    let count = r.count;
    match stores::keep(bytes, ends, count, x) {
        stores::Filed::There(place, offset) => {
            return Roster {
                count: count,
                full: r.full,
                number: place,
            };
        }
        stores::Filed::Added(place, offset) => {
            return Roster {
                count: count + 1,
                full: r.full,
                number: place,
            };
        }
        stores::Filed::Full => {
            return Roster {
                count: count,
                full: true,
                number: NONE,
            };
        }
    }
}
