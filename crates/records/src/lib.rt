// The records of a sheet, put into lent memory: a production's 12 bytes, a tag's 16, the trailer's 24.

#![tactic(auto)]

ghost use Rattle.std.specs.Prelude.{true, ◌+◌, ◌≤◌, ◌<◌, ◌^◌, length};
ghost use Rattle.limits.specs.Limits.{longest_name};
ghost use Rattle.lent.specs.Put.{PutAs};
ghost use Rattle.sheet.specs.Tags.{tag_record};
ghost use Rattle.packing.specs.Packed.{trailer};
ghost use Rattle.records.specs.Records.{record_bytes, FitsRecord, TrailerFits};

// A production by its numbers.
pub fn put_production(
    memory: &mut [u8],
    at: usize,
    nonterminal: usize,
    tag: usize,
    first: usize,
    nodes: usize,
    front: usize,
    back: usize,
) -> usize
    requires at_bound { at + 12 < 2 ^ 64 }
    requires fits_record { FitsRecord nonterminal tag first nodes front back }
    ensures { PutAs true memory.old at (record_bytes nonterminal tag first nodes front back) memory.new result }
{
    let row = [
        nonterminal as u8,
        tag as u8,
        (first % 256) as u8,
        (first / 256) as u8,
        nodes as u8,
        0,
        (front % 256) as u8,
        (front / 256) as u8,
        (back % 256) as u8,
        (back / 256) as u8,
        0,
        0,
    ];
    lent::put_bytes(memory, at, &row, true)
}

// A tag by its name.
pub fn put_tag(memory: &mut [u8], at: usize, name: &[u8]) -> usize
    requires at_bound { at + 16 < 2 ^ 64 }
    requires name_len_bound { length name.now ≤ longest_name }
    ensures { PutAs true memory.old at (tag_record name.now) memory.new result }
{
    let mut row = [0; 16];
    row[0] = name.len() as u8;
    let end = lent::put_bytes(&mut row, 1, name, true);
    lent::put_bytes(memory, at, &row, true)
}

// The trailer: the sections lie behind one another in their order.
pub fn put_trailer(
    memory: &mut [u8],
    at: usize,
    tags: usize,
    productions: usize,
    nodes: usize,
    programs: usize,
    strings: usize,
    start: usize,
) -> usize
    requires at_bound { at + 24 < 2 ^ 64 }
    requires trailer_fits { TrailerFits tags productions nodes programs strings start }
    ensures { PutAs true memory.old at (trailer tags productions nodes programs strings start) memory.new result }
{
    let second = 16 * tags;
    let third = second + 12 * productions;
    let fourth = third + 6 * nodes;
    let fifth = fourth + programs;
    let row = [
        0,
        0,
        (tags % 256) as u8,
        (tags / 256) as u8,
        (second % 256) as u8,
        (second / 256) as u8,
        (productions % 256) as u8,
        (productions / 256) as u8,
        (third % 256) as u8,
        (third / 256) as u8,
        (nodes % 256) as u8,
        (nodes / 256) as u8,
        (fourth % 256) as u8,
        (fourth / 256) as u8,
        (programs % 256) as u8,
        (programs / 256) as u8,
        (fifth % 256) as u8,
        (fifth / 256) as u8,
        (strings % 256) as u8,
        (strings / 256) as u8,
        (start % 256) as u8,
        (start / 256) as u8,
        88,
        83,
    ];
    lent::put_bytes(memory, at, &row, true)
}
