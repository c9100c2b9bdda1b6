// Content models from a DTD: declarations are read byte by byte and written as a sheet into lent memory; or 50 to 56, or 43, with what goes with them.

#![tactic(auto)]

ghost use Rattle.std.specs.Prelude.{◌<◌, length};
ghost use Rattle.declaring.specs.Declares.{DeclaredAs};
ghost use Rattle.scans.specs.Scans.{Rooms, ReadUpTo, ByteIs};

use scans::Scan;

// A number, and the count that goes with it.
#[derive(Clone, Copy)]
pub struct Declared {
    pub number: usize,
    pub count: usize,
}

// One byte further.
fn stride(
    text: &[u8],
    at: usize,
    s: Scan,
    names: &mut [u8],
    nameends: &mut [usize],
    tags: &mut [u8],
    tagends: &mut [usize],
    productions: &mut [u8],
    nodes: &mut [u8],
) -> Scan
    requires at_in_bounds { at < length text.now }
    requires read_up_to { ReadUpTo text.now at s names.old nameends.old tags.old tagends.old productions.old nodes.old }
    ensures { ByteIs text.now at names.new nameends.new tags.new tagends.new productions.new nodes.new result }
{
    let b = text[at];
    if s.out {
        return scans::between(text, at, b, s);
    }
    scans::amid(
        text,
        at,
        b,
        s,
        names,
        nameends,
        tags,
        tagends,
        productions,
        nodes,
    )
}

// The text has ended.
fn settle(
    text: &[u8],
    area: &mut [u8],
    s: Scan,
    names: &[u8],
    nameends: &[usize],
    tags: &[u8],
    tagends: &[usize],
    productions: &[u8],
    nodes: &[u8],
) -> Declared
    requires { ReadUpTo text.now (length text.now) s names.now nameends.now tags.now tagends.now productions.now nodes.now }
    ensures { DeclaredAs text.now area.old result.number result.count area.new }
{
    let k = s.docket;
    let tally = k.tally;
    let declared = k.tags;
    if s.out {
        if let Some(byte) = k.passed {
            return Declared {
                number: 56,
                count: byte,
            };
        }
        if tally.productions == 0 {
            return Declared {
                number: 55,
                count: text.len(),
            };
        }
        let a = 12 * tally.productions;
        let b = 6 * tally.nodes;
        let o = sealing::seal(
            area,
            tags,
            tagends,
            declared.count,
            &productions[..a],
            &nodes[..b],
            &productions[..0],
            &nodes[..0],
            0,
        );
        return Declared {
            number: o.number,
            count: o.count,
        };
    }
    Declared {
        number: 55,
        count: text.len(),
    }
}

// All bytes, with memory for what is kept.
fn over(
    text: &[u8],
    area: &mut [u8],
    names: &mut [u8],
    nameends: &mut [usize],
    tags: &mut [u8],
    tagends: &mut [usize],
    productions: &mut [u8],
    nodes: &mut [u8],
) -> Declared
    requires { Rooms names.old nameends.old tags.old tagends.old productions.old nodes.old }
    ensures { DeclaredAs text.now area.old result.number result.count area.new }
{
    let mut s = scans::fresh();
    for at in 0..text.len() {
        s = stride(
            text,
            at,
            s,
            names,
            nameends,
            tags,
            tagends,
            productions,
            nodes,
        );
        if let Some(number) = s.halt {
            return Declared {
                number: number,
                count: at,
            };
        }
    }
    settle(
        text,
        area,
        s,
        names,
        nameends,
        tags,
        tagends,
        productions,
        nodes,
    )
}

// The sheet of the declarations that a text holds, in the lent area.
pub fn declare(text: &[u8], sheet: &mut [u8]) -> Declared
    ensures { DeclaredAs text.now sheet.old result.number result.count sheet.new }
{
    let mut names = [0; 960];
    let mut nameends = [0; 64];
    let mut tags = [0; 960];
    let mut tagends = [0; 64];
    let mut productions = [0; 768];
    let mut nodes = [0; 1536];
    over(
        text,
        sheet,
        &mut names,
        &mut nameends,
        &mut tags,
        &mut tagends,
        &mut productions,
        &mut nodes,
    )
}
