// All that a writer of sheets keeps beside its reader, one token further.

#![tactic(auto)]

ghost use Rattle.inks.specs.Held.{Trim};
ghost use Rattle.shelves.specs.Shelves.{Rowed};
ghost use Rattle.advance.specs.Advance.{FiledRow, Firmly, Advanced};

#[derive(Clone, Copy)]
pub struct Desk {
    pub slip: slips::Slip,
    pub past: pasts::Past,
    pub shelved: shelves::Shelved,
    pub ink: inks::Ink,
    pub bed: beds::Bed,
}

// The token's row is filed, where there is room for it.
fn file_row(
    token: &[u8],
    kind: usize,
    number: usize,
    ink: inks::Ink,
    old: shelves::Shelved,
    tags: &mut [u8],
    tagends: &mut [usize],
    strings: &mut [u8],
    stringends: &mut [usize],
    programs: &mut [u8],
    programends: &mut [usize],
) -> Option<shelves::Shelved>
    requires { Trim ink × Rowed old tags.old tagends.old strings.old stringends.old programs.old programends.old }
    ensures { FiledRow token.now kind number ink old tags.old tagends.old strings.old stringends.old programs.old programends.old tags.new tagends.new strings.new stringends.new programs.new programends.new result }
{
    let mut out = [0; 256];
    let n = rowing::row_of(token, kind, number, ink, &mut out);
    shelves::file(
        kind,
        &out[0..n],
        old,
        tags,
        tagends,
        strings,
        stringends,
        programs,
        programends,
    )
}

// `before` and `behind` are the readers around the token. Where a store has no room for its row, there is no desk behind it.
pub fn advance(
    d: Desk,
    before: rulings::Reader,
    behind: rulings::Reader,
    token: &[u8],
    kind: usize,
    number: usize,
    tags: &mut [u8],
    tagends: &mut [usize],
    strings: &mut [u8],
    stringends: &mut [usize],
    programs: &mut [u8],
    programends: &mut [usize],
    productions: &mut [u8],
    nodes: &mut [u8],
) -> Option<Desk>
    requires { Firmly d tags.old tagends.old strings.old stringends.old programs.old programends.old productions.old nodes.old }
    ensures { Advanced d before behind token.now kind number tags.old tagends.old strings.old stringends.old programs.old programends.old productions.old nodes.old tags.new tagends.new strings.new stringends.new programs.new programends.new productions.new nodes.new result }
{
    let slip = d.slip;
    let past = d.past;
    let old = d.shelved;
    let ink = d.ink;
    let bed = d.bed;
    let first = before.draft;
    let p = first.point;
    let second = behind.draft;
    let q = second.point;
    let here = slips::spot(p);
    let there = slips::spot(q);
    let w = drafts::place_of(p);
    let new = file_row(
        token,
        kind,
        number,
        ink,
        old,
        tags,
        tagends,
        strings,
        stringends,
        programs,
        programends,
    )?;
    let place = new.place;
    let past2 = turns_past::turn_past(past, slip, bed, here, there, kind, productions, nodes);
    let slip2 = slips::turn(slip, here, kind, number, place);
    let ink2 = turns_ink::turn_ink(ink, kind, number, place, w.reads, w.second);
    let bed2 = turns_bed::turn_bed(bed, here, kind, number, place, w.reads, w.second);
    Some(Desk {
        slip: slip2,
        past: past2,
        shelved: new,
        ink: ink2,
        bed: bed2,
    })
}
