// The sections of a sheet, put behind one another into lent memory.

#![tactic(auto)]

ghost use Rattle.std.specs.Prelude.{◌+◌, ◌<◌, ◌^◌};
ghost use Rattle.binding.specs.Bound.{TagRows, TagsPut, SectionsFit, BoundIs};

// The records of the names that a store has, in their order.
pub fn put_tags(bytes: &[u8], ends: &[usize], count: usize, memory: &mut [u8], at: usize) -> usize
    requires tag_rows { TagRows bytes.now ends.now count }
    requires at_bound { at + 2048 < 2 ^ 64 }
    ensures { TagsPut bytes.now ends.now count memory.old at memory.new result }
{
    let mut from = 0;
    let mut n = at;
    for to in &ends[..count] {
        n = records::put_tag(memory, n, &bytes[from..*to]);
        from = *to;
    }
    n
}

// All sections and the trailer, from the first byte on.
pub fn bind(
    area: &mut [u8],
    bytes: &[u8],
    ends: &[usize],
    count: usize,
    productions: &[u8],
    nodes: &[u8],
    programs: &[u8],
    strings: &[u8],
    start: usize,
) -> usize
    requires tag_rows { TagRows bytes.now ends.now count }
    requires sections_fit { SectionsFit productions.now nodes.now programs.now strings.now start }
    ensures { BoundIs bytes.now ends.now count productions.now nodes.now programs.now strings.now start area.old area.new result }
{
    let second = put_tags(bytes, ends, count, area, 0);
    let third = lent::put_bytes(area, second, productions, true);
    let fourth = lent::put_bytes(area, third, nodes, true);
    let fifth = lent::put_bytes(area, fourth, programs, true);
    let end = lent::put_bytes(area, fifth, strings, true);
    records::put_trailer(
        area,
        end,
        count,
        productions.len() / 12,
        nodes.len() / 6,
        programs.len(),
        strings.len(),
        start,
    )
}
