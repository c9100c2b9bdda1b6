// What a token mentions, filed in the store of its sort: a tag, a string, or the program that the token ends.

#![tactic(auto)]

ghost use Rattle.std.specs.Prelude.{◌≡◌};
ghost use Rattle.stores.specs.Rows.{HasRows};
ghost use Rattle.shelves.specs.Shelves.{FilingIs, Rowed, ShelvedIs};

// A row that is filed: how many rows there are then, and the place and the offset of this one.
#[derive(Clone, Copy)]
pub struct Filing {
    pub count: usize,
    pub place: usize,
    pub offset: usize,
}

// A row is filed in one store, where there is room for it.
pub fn shelve(bytes: &mut [u8], ends: &mut [usize], count: usize, x: &[u8]) -> Option<Filing>
    requires { HasRows bytes.old ends.old count }
    ensures { FilingIs bytes.old ends.old count x.now bytes.new ends.new result }
{
    match stores::keep(bytes, ends, count, x) {
        stores::Filed::There(p, o) => Some(Filing {
            count: count,
            place: p,
            offset: o,
        }),
        stores::Filed::Added(p, o) => Some(Filing {
            count: count + 1,
            place: p,
            offset: o,
        }),
        stores::Filed::Full => None,
    }
}

// How many rows the stores of tags, strings and programs have; and the number in the sheet of the row that was filed last: a tag's place, or the offset
// of a string or a program.
#[derive(Clone, Copy)]
pub struct Shelved {
    pub place: usize,
    pub tags: usize,
    pub strings: usize,
    pub programs: usize,
}

// The row of a token of a kind is filed where rows of its sort are, if they have room; of other kinds nothing is.
pub fn file(
    kind: usize,
    row: &[u8],
    old: Shelved,
    tags: &mut [u8],
    tagends: &mut [usize],
    strings: &mut [u8],
    stringends: &mut [usize],
    programs: &mut [u8],
    programends: &mut [usize],
) -> Option<Shelved>
    requires { Rowed old tags.old tagends.old strings.old stringends.old programs.old programends.old }
    ensures { ShelvedIs kind row.now old tags.old tagends.old strings.old stringends.old programs.old programends.old tags.new tagends.new strings.new stringends.new programs.new programends.new result }
{
    if kind == 9 {
        let a = shelve(strings, stringends, old.strings, row)?;
        return Some(Shelved {
            place: a.offset,
            tags: old.tags,
            strings: a.count,
            programs: old.programs,
        });
    }
    if kind == 28 {
        let a = shelve(programs, programends, old.programs, row)?;
        return Some(Shelved {
            place: a.offset,
            tags: old.tags,
            strings: old.strings,
            programs: a.count,
        });
    }
    if kind < 5 {
        return Some(old);
    }
    if kind < 9 {
        let a = shelve(tags, tagends, old.tags, row)?;
        return Some(Shelved {
            place: a.place,
            tags: a.count,
            strings: old.strings,
            programs: old.programs,
        });
    }
    Some(old)
}
