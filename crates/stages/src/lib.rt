// How far a declaration is read, by value, and what one byte more makes of it where no model of children is being read.

#![tactic(auto)]

ghost use Rattle.std.specs.Prelude.{◌≡◌, ◌<◌};
ghost use Rattle.stages.specs.Steps.{moved_on, told_as, with_row, with_nest, BegunIs, LongerIs, SpelledIs, NoNodesIs, PlainStep, NameStep, NameEndAs};
ghost use Rattle.stages.specs.declared.Station.{Station};

use declarations::NodeRow;
use levels::Nest;

// The longest name.
const LONGEST: usize = 15;

// Where in a declaration a byte stands: the phases of its machine, without what they hold.
#[derive(Clone, Copy)]
pub enum Station {
    Opening,
    Naming,
    Named,
    Contents,
    Emptying,
    Inside,
    Hashing,
    Mixing,
    Barred,
    MixedName,
    MixedClosed,
    Wants,
    InName,
    Marking,
    After,
    GroupClosed,
    Ended,
}

#[derive(Clone, Copy)]
pub struct Headway {
    pub station: Station,
    // The bytes of the name or the keyword that is being read.
    pub long: usize,
    // Whether mixed content has names.
    pub named: bool,
    // The nodes of mixed content so far, or of a content that is closed.
    pub row: NodeRow,
    // The place in a model of children.
    pub nest: Nest,
}

// What a byte does: the declaration goes on, or it is over; or the byte is refused, or it opens one pair of parentheses too many.
#[derive(Clone, Copy)]
pub enum Fate {
    On,
    Over,
    Refused,
    Deep,
}

// Where the declaration goes on, how far it is read then; where it is over, its nodes are in the row.
#[derive(Clone, Copy)]
pub struct Moved {
    pub fate: Fate,
    pub headway: Headway,
}

// Which name ends, and its length: none, the element's own, or one of its content.
#[derive(Clone, Copy)]
pub enum NameEnd {
    Nothing,
    Own(usize),
    Inner(usize),
}

// No nodes.
fn no_nodes() -> NodeRow
    ensures { NoNodesIs result }
{
    NodeRow {
        length: 0,
        deep: 0,
        bytes: [0; 132],
    }
}

impl Headway {
    // Behind the < of a declaration.
    pub fn begun() -> Headway
        ensures { BegunIs result }
    {
        Headway {
            station: Station::Opening,
            long: 0,
            named: false,
            row: no_nodes(),
            nest: levels::Nest::opened(),
        }
    }

    // On to another station.
    pub fn on(self, station: Station, long: usize) -> Moved
        ensures { result ≡ moved_on self station long }
    {
        let row = self.row;
        let nest = self.nest;
        Moved {
            fate: Fate::On,
            headway: Headway {
                station: station,
                long: long,
                named: self.named,
                row: row,
                nest: nest,
            },
        }
    }

    // As it stands.
    pub fn told(self, fate: Fate) -> Moved
        ensures { result ≡ told_as self fate }
    {
        Moved {
            fate: fate,
            headway: self,
        }
    }

    // With other nodes.
    pub fn with_row(self, named: bool, row: NodeRow) -> Headway
        ensures { result ≡ with_row self named row }
    {
        let station = self.station;
        let nest = self.nest;
        Headway {
            station: station,
            long: self.long,
            named: named,
            row: row,
            nest: nest,
        }
    }

    // At another place in a model.
    pub fn with_nest(self, nest: Nest) -> Headway
        ensures { result ≡ with_nest self nest }
    {
        let station = self.station;
        let row = self.row;
        Headway {
            station: station,
            long: self.long,
            named: self.named,
            row: row,
            nest: nest,
        }
    }

    // A name has one byte more, where it may.
    pub fn longer(self, station: Station) -> Moved
        ensures { LongerIs station self result }
    {
        let long = self.long;
        if long < LONGEST {
            return self.on(station, long + 1);
        }
        self.told(Fate::Refused)
    }

    // A keyword has one byte more, where it is the next.
    fn spelled(self, station: Station, next: u8, b: u8) -> Moved
        requires { self.long < 8 }
        ensures { SpelledIs station next self b result }
    {
        if b == next {
            return self.on(station, self.long + 1);
        }
        self.told(Fate::Refused)
    }

    // In <!ELEMENT, or behind it.
    pub fn opening(self, b: u8) -> Moved
        ensures { PlainStep Station.Opening self b result }
    {
        let word: [u8; 8] = [33, 69, 76, 69, 77, 69, 78, 84];
        let long = self.long;
        if long < 8 {
            return self.spelled(Station::Opening, word[long], b);
        }
        if text::blank(b) {
            return self.on(Station::Naming, 0);
        }
        self.told(Fate::Refused)
    }

    // Before the element's name.
    pub fn naming(self, b: u8) -> Moved
        ensures { PlainStep Station.Naming self b result }
    {
        if text::blank(b) {
            return self.on(Station::Naming, 0);
        }
        if text::name_first(b) {
            return self.on(Station::Named, 1);
        }
        self.told(Fate::Refused)
    }

    // In the element's name.
    pub fn own_name(self, b: u8) -> Moved
        ensures { PlainStep Station.Named self b result }
    {
        if text::name_byte(b) {
            return self.longer(Station::Named);
        }
        if text::blank(b) {
            return self.on(Station::Contents, 0);
        }
        self.told(Fate::Refused)
    }

    // Where a content may begin.
    pub fn contents(self, b: u8) -> Moved
        ensures { PlainStep Station.Contents self b result }
    {
        if text::blank(b) {
            return self.on(Station::Contents, 0);
        }
        if b == 69 {
            return self.on(Station::Emptying, 0);
        }
        if b == 40 {
            return self.on(Station::Inside, 0);
        }
        self.told(Fate::Refused)
    }

    // Behind a content.
    pub fn ended(self, b: u8) -> Moved
        ensures { PlainStep Station.Ended self b result }
    {
        if text::blank(b) {
            return self.on(Station::Ended, 0);
        }
        if b == 62 {
            return self.told(Fate::Over);
        }
        self.told(Fate::Refused)
    }

    // In EMPTY, or behind it.
    pub fn emptying(self, b: u8) -> Moved
        ensures { PlainStep Station.Emptying self b result }
    {
        let word: [u8; 4] = [77, 80, 84, 89];
        let long = self.long;
        if long < 4 {
            return self.spelled(Station::Emptying, word[long], b);
        }
        let empty = self.with_row(false, no_nodes());
        empty.ended(b)
    }

    // Behind #PCDATA or a name of mixed content.
    pub fn mixing(self, b: u8) -> Moved
        ensures { PlainStep Station.Mixing self b result }
    {
        if text::blank(b) {
            return self.on(Station::Mixing, 0);
        }
        if b == 124 {
            return self.on(Station::Barred, 0);
        }
        if b == 41 {
            return self.on(Station::MixedClosed, 0);
        }
        self.told(Fate::Refused)
    }

    // In #PCDATA, or behind it.
    pub fn hashing(self, b: u8) -> Moved
        ensures { PlainStep Station.Hashing self b result }
    {
        let word: [u8; 6] = [80, 67, 68, 65, 84, 65];
        let long = self.long;
        if long < 6 {
            return self.spelled(Station::Hashing, word[long], b);
        }
        self.mixing(b)
    }

    // Behind a bar of mixed content.
    pub fn barred(self, b: u8) -> Moved
        ensures { PlainStep Station.Barred self b result }
    {
        if text::blank(b) {
            return self.on(Station::Barred, 0);
        }
        if text::name_first(b) {
            return self.on(Station::MixedName, 1);
        }
        self.told(Fate::Refused)
    }

    // In a name of mixed content, which has that number where it ends here.
    pub fn mixed_name(self, b: u8, number: u8) -> Moved
        ensures { NameStep Station.MixedName self b number result }
    {
        if text::name_byte(b) {
            return self.longer(Station::MixedName);
        }
        let row = self.row;
        let more = self.with_row(true, declarations::or_name(row, number));
        more.mixing(b)
    }

    // Behind the ) of mixed content, which needs its * where it has names.
    pub fn mixed_closed(self, b: u8) -> Moved
        ensures { PlainStep Station.MixedClosed self b result }
    {
        let row = self.row;
        let whole = self.with_row(self.named, declarations::starred(row));
        if b == 42 {
            return whole.on(Station::Ended, 0);
        }
        if self.named {
            return self.told(Fate::Refused);
        }
        whole.ended(b)
    }

    // Which name ends before a byte.
    pub fn name_end(self, b: u8) -> NameEnd
        ensures { NameEndAs self b result }
    {
        if text::name_byte(b) {
            return NameEnd::Nothing;
        }
        let long = self.long;
        let station = self.station;
        match station {
            Station::Named => NameEnd::Own(long),
            Station::MixedName => NameEnd::Inner(long),
            Station::InName => NameEnd::Inner(long),
            Station::Opening => NameEnd::Nothing,
            Station::Naming => NameEnd::Nothing,
            Station::Contents => NameEnd::Nothing,
            Station::Emptying => NameEnd::Nothing,
            Station::Inside => NameEnd::Nothing,
            Station::Hashing => NameEnd::Nothing,
            Station::Mixing => NameEnd::Nothing,
            Station::Barred => NameEnd::Nothing,
            Station::MixedClosed => NameEnd::Nothing,
            Station::Wants => NameEnd::Nothing,
            Station::Marking => NameEnd::Nothing,
            Station::After => NameEnd::Nothing,
            Station::GroupClosed => NameEnd::Nothing,
            Station::Ended => NameEnd::Nothing,
        }
    }
}
