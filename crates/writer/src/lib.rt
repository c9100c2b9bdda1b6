// Rules typed as text are written as a sheet into lent memory: 40, 41 or 43 with what goes with them, or the sheet.

#![tactic(auto)]

ghost use Rattle.std.specs.Prelude.{◌≡◌};
ghost use Rattle.writing.specs.Written.{WrittenAs};
ghost use Rattle.writer.specs.declared.Ahead.{Ahead};
ghost use Rattle.writer.specs.Walks.{Places, FreshDesk, LastIs, ahead_of, NoToken, WalkStopped, LateIs, WalkIs, WalkedOn, Begun};

// A number, and the count that goes with it.
#[derive(Clone, Copy)]
pub struct Written {
    pub number: usize,
    pub count: usize,
}

// What a writer has before it: the next token; what is told of the text, where no token goes on; or, where a store was full, the byte that goes with 41.
#[derive(Clone, Copy)]
enum Ahead {
    Token(sights::Token),
    End(sights::Ruling),
    Full(usize),
}

// Where a writer stands: how many bytes are read; what it keeps, its reader, and what it has found behind those bytes.
#[derive(Clone, Copy)]
struct Walk {
    from: usize,
    desk: advance::Desk,
    reader: rulings::Reader,
    ahead: Ahead,
}

// What was found behind a gap, as what a writer has before it.
fn ahead_of(g: Result<sights::Token, sights::Ruling>) -> Ahead
    ensures { result ≡ ahead_of g }
{
    // Returns: what a match comes to is cleared and copied once more, and a token is large.
    match g {
        Ok(token) => return Ahead::Token(token),
        Err(told) => return Ahead::End(told),
    }
}

// Before the first token.
fn fresh() -> advance::Desk
    ensures { FreshDesk result }
{
    let ink = inks::Ink::fresh();
    let bed = beds::Bed::fresh();
    let slip = slips::Slip {
        start: 0,
        nonterm: 0,
        tag: 0,
        front: 0xFFFF,
        back: 0xFFFF,
    };
    let past = pasts::Past {
        productions: 0,
        before: 0,
        nodes: 0,
    };
    let shelved = shelves::Shelved {
        place: 0,
        tags: 0,
        strings: 0,
        programs: 0,
    };
    advance::Desk {
        slip: slip,
        past: past,
        shelved: shelved,
        ink: ink,
        bed: bed,
    }
}

// The last byte of what a token mentions, counted from its first.
fn last_of(kind: usize, number: usize, long: usize) -> usize
    ensures { LastIs kind number long result }
{
    if kind == 5 {
        if number == 0 {
            return 0;
        }
        return number - 1;
    }
    if kind == 9 {
        if long == 0 {
            return 0;
        }
        return long - 1;
    }
    if kind == 7 {
        if number < 16 {
            return number + 1;
        }
        return 0;
    }
    if kind == 6 {
        return number;
    }
    if kind == 8 {
        return number;
    }
    0
}

// One token further.
fn stride(
    text: &[u8],
    w: Walk,
    token: sights::Token,
    tags: &mut [u8],
    tagends: &mut [usize],
    strings: &mut [u8],
    stringends: &mut [usize],
    programs: &mut [u8],
    programends: &mut [usize],
    productions: &mut [u8],
    nodes: &mut [u8],
) -> Walk
    requires { (w.ahead ≡ Ahead.Token token) × WalkIs text.now w tags.old tagends.old strings.old stringends.old programs.old programends.old productions.old nodes.old }
    ensures { WalkedOn text.now w tags.new tagends.new strings.new stringends.new programs.new programends.new productions.new nodes.new result }
{
    let d = w.desk;
    let r = w.reader;
    let behind = token.reader;
    let at = w.from + token.at;
    let past = at + token.long;
    let Some(next) = advance::advance(
        d,
        r,
        behind,
        &text[at..],
        token.kind,
        token.number,
        tags,
        tagends,
        strings,
        stringends,
        programs,
        programends,
        productions,
        nodes,
    ) else {
        let last = last_of(token.kind, token.number, token.long);
        return Walk {
            from: past,
            desk: d,
            reader: behind,
            ahead: Ahead::Full(at + last),
        };
    };
    Walk {
        from: past,
        desk: next,
        reader: behind,
        ahead: ahead_of(sights::look(&text[past..], behind)),
    }
}

// A store was full: 41, unless the text is refused further on.
fn late(text: &[u8], from: usize, byte: usize, reader: rulings::Reader) -> Written
    requires { WalkStopped text.now from byte reader }
    ensures { LateIs text.now result.number result.count }
{
    match sights::judge_rest(&text[from..], reader) {
        Ok(()) => Written {
            number: 41,
            count: byte,
        },
        Err(k) => Written {
            number: 40,
            count: from + k,
        },
    }
}

// The tokens have ended, or a store was full.
fn settle(
    text: &[u8],
    area: &mut [u8],
    w: Walk,
    tags: &[u8],
    tagends: &[usize],
    strings: &[u8],
    stringends: &[usize],
    programs: &[u8],
    programends: &[usize],
    productions: &mut [u8],
    nodes: &[u8],
) -> Written
    requires { NoToken w.ahead × WalkIs text.now w tags.now tagends.now strings.now stringends.now programs.now programends.now productions.old nodes.now }
    ensures { WrittenAs text.now area.old result.number result.count area.new }
{
    let from = w.from;
    match w.ahead {
        Ahead::Token(_) => unreachable!(),
        Ahead::End(told) => match told {
            Ok(()) => {
                let d = w.desk;
                let o = closings::finish(
                    area,
                    d.slip,
                    d.shelved,
                    d.past,
                    tags,
                    tagends,
                    productions,
                    nodes,
                    strings,
                    stringends,
                    programs,
                    programends,
                );
                Written {
                    number: o.number,
                    count: o.count,
                }
            }
            Err(k) => Written {
                number: 40,
                count: from + k,
            },
        },
        Ahead::Full(byte) => late(text, from, byte, w.reader),
    }
}

// Before the first token, with what stands there in sight.
fn begin(text: &[u8]) -> Walk
    ensures { Begun text.now result }
{
    let first = rulings::start();
    Walk {
        from: 0,
        desk: fresh(),
        reader: first,
        ahead: ahead_of(sights::look(text, first)),
    }
}

// The rules that a text writes, as a sheet in the lent area: token by token to the end, or to a store that is full.
pub fn write(text: &[u8], sheet: &mut [u8]) -> Written
    ensures { WrittenAs text.now sheet.old result.number result.count sheet.new }
{
    let mut tags = [0; 960];
    let mut tagends = [0; 64];
    let mut strings = [0; 8192];
    let mut stringends = [0; 8193];
    let mut programs = [0; 16384];
    let mut programends = [0; 16385];
    let mut productions = [0; 768];
    let mut nodes = [0; 1536];
    let mut w = begin(text);
    // A while: each stride says whether it goes on, by the token that it read, which no range gives.
    while let Ahead::Token(token) = w.ahead {
        w = stride(
            text,
            w,
            token,
            &mut tags,
            &mut tagends,
            &mut strings,
            &mut stringends,
            &mut programs,
            &mut programends,
            &mut productions,
            &mut nodes,
        );
    }
    settle(
        text,
        sheet,
        w,
        &tags,
        &tagends,
        &strings,
        &stringends,
        &programs,
        &programends,
        &mut productions,
        &nodes,
    )
}
