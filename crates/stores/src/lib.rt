// Tags, strings and programs stored once: rows of bytes that lie back to back in lent memory, with the place at which each ends. A row is found
// among them, or put behind them.

#![tactic(auto)]

ghost use Rattle.stores.specs.Rows.{HasRows};
ghost use Rattle.stores.specs.Filed.{SeatIs, FiledIs};

// Where a row is: how many rows stand before it, and how many bytes. A row that is not there would be behind all the others.
#[derive(Clone, Copy)]
pub struct Seat {
    pub place: usize,
    pub offset: usize,
}

// The place and the offset of a row that was there, or that is there now; or there is no room for it.
#[derive(Clone, Copy)]
pub enum Filed {
    There(usize, usize),
    Added(usize, usize),
    Full,
}

// Where a row is among the rows of a store.
fn find(bytes: &[u8], ends: &[usize], count: usize, x: &[u8]) -> Seat
    requires { HasRows bytes.now ends.now count }
    ensures { SeatIs bytes.now ends.now count x.now result }
{
    let mut from = 0;
    for (i, to) in ends[..count].iter().enumerate() {
        let row = &bytes[from..*to];
        if x == row {
            return Seat {
                place: i,
                offset: from,
            };
        }
        from = *to;
    }
    Seat {
        place: count,
        offset: from,
    }
}

// Finds a row in a store, or puts it behind the others where there is room for its bytes and for its end.
pub fn keep(bytes: &mut [u8], ends: &mut [usize], count: usize, x: &[u8]) -> Filed
    requires { HasRows bytes.old ends.old count }
    ensures { FiledIs bytes.old ends.old count x.now bytes.new ends.new result }
{
    let seat = find(bytes, ends, count, x);
    let offset = seat.offset;
    if seat.place < count {
        return Filed::There(seat.place, offset);
    }
    if ends.len() <= count {
        return Filed::Full;
    }
    if bytes.len() - offset < x.len() {
        return Filed::Full;
    }
    let end = lent::put_bytes(bytes, offset, x, true);
    ends[count] = end;
    Filed::Added(count, offset)
}
