// The end of a rule text: the last production's record, and the sheet, or the length that it needs.

#![tactic(auto)]

ghost use Rattle.std.specs.Prelude.{◌≤◌, length};
ghost use Rattle.closings.specs.Closings.{UsedIs, SomeReady, BoundAs, SomeWhole, FinishIs};

// How many bytes the rows of a store have.
fn used(ends: &[usize], count: usize) -> usize
    requires { count ≤ length ends.now }
    ensures { UsedIs ends.now count result }
{
    if count == 0 {
        return 0;
    }
    ends[count - 1]
}

// Every production has its record.
fn bound(
    area: &mut [u8],
    start: usize,
    counts: shelves::Shelved,
    past: pasts::Past,
    tags: &[u8],
    tagends: &[usize],
    productions: &[u8],
    nodes: &[u8],
    strings: &[u8],
    stringends: &[usize],
    programs: &[u8],
    programends: &[usize],
) -> sealing::Outcome
    requires { SomeReady start counts past tags.now tagends.now productions.now nodes.now strings.now stringends.now programs.now programends.now }
    ensures { BoundAs start counts past tags.now tagends.now productions.now nodes.now strings.now stringends.now programs.now programends.now area.old area.new result }
{
    let a = 12 * past.productions;
    let b = past.nodes;
    let c = used(programends, counts.programs);
    let d = used(stringends, counts.strings);
    sealing::seal(
        area,
        tags,
        tagends,
        counts.tags,
        &productions[0..a],
        &nodes[0..b],
        &programs[0..c],
        &strings[0..d],
        start,
    )
}

// The text has ended behind a production.
pub fn finish(
    area: &mut [u8],
    slip: slips::Slip,
    counts: shelves::Shelved,
    past: pasts::Past,
    tags: &[u8],
    tagends: &[usize],
    productions: &mut [u8],
    nodes: &[u8],
    strings: &[u8],
    stringends: &[usize],
    programs: &[u8],
    programends: &[usize],
) -> sealing::Outcome
    requires { SomeWhole slip counts past tags.now tagends.now productions.old nodes.now strings.now stringends.now programs.now programends.now }
    ensures { FinishIs slip counts past tags.now tagends.now productions.old nodes.now strings.now stringends.now programs.now programends.now area.old area.new result }
{
    let p = pasts::end(past, slip, productions);
    bound(
        area,
        slip.start,
        counts,
        p,
        tags,
        tagends,
        productions,
        nodes,
        strings,
        stringends,
        programs,
        programends,
    )
}
