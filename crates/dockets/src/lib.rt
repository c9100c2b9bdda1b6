// What is kept beside a declaration that is being read: the names mentioned and the tags declared so far, the records of the declarations before, and
// whether these were more than a sheet can hold.

#![tactic(auto)]

ghost use Rattle.std.specs.Prelude.{◌≡◌};
ghost use Rattle.dockets.specs.Noted.{Noting, NotedIs};
ghost use Rattle.dockets.specs.Concluded.{crowded_by, Concluding, ConcludedIs};

use declarations::NodeRow;
use entries::Tally;
use rosters::Roster;
use stages::NameEnd;

#[derive(Clone, Copy)]
pub struct Docket {
    pub names: Roster,
    pub tags: Roster,
    // The number of the element that is being declared; its tag is the one that was filed last.
    pub element: usize,
    pub tally: Tally,
    // The byte at which the declarations were too many for a sheet, if they were.
    pub passed: Option<usize>,
}

// The name that ends before a byte is filed: the element's own is a name and a tag, one of its content a name.
pub fn note(
    text: &[u8],
    at: usize,
    end: NameEnd,
    k: Docket,
    names: &mut [u8],
    nameends: &mut [usize],
    tags: &mut [u8],
    tagends: &mut [usize],
) -> Docket
    requires { Noting text.now at end k names.old nameends.old tags.old tagends.old }
    ensures { NotedIs text.now at end k names.old nameends.old tags.old tagends.old names.new nameends.new tags.new tagends.new result }
{
    let mentioned = k.names;
    let declared = k.tags;
    let tally = k.tally;
    match end {
        NameEnd::Nothing => {
            return k;
        }
        NameEnd::Own(long) => {
            let from = at - long;
            let more = rosters::enrol(names, nameends, mentioned, &text[from..at]);
            let tag = rosters::enrol(tags, tagends, declared, &text[from..at]);
            return Docket {
                names: more,
                tags: tag,
                element: more.number,
                tally: tally,
                passed: k.passed,
            };
        }
        NameEnd::Inner(long) => {
            let from = at - long;
            let more = rosters::enrol(names, nameends, mentioned, &text[from..at]);
            return Docket {
                names: more,
                tags: declared,
                element: k.element,
                tally: tally,
                passed: k.passed,
            };
        }
    }
}

// Whether a declaration with so many bytes of nodes is one too many, has a name too many, or nodes too many.
fn crowded(k: Docket, long: usize) -> bool
    requires { Concluding k long }
    ensures { result ≡ crowded_by k long }
{
    let names = k.names;
    let tags = k.tags;
    let tally = k.tally;
    names.full | (tags.full | ((64 <= tally.productions) | (256 < tally.nodes + long / 2)))
}

// A declaration is over at a byte.
pub fn conclude(
    k: Docket,
    at: usize,
    row: NodeRow,
    productions: &mut [u8],
    nodes: &mut [u8],
) -> Docket
    requires { Concluding k row.length }
    ensures { ConcludedIs k at row productions.old nodes.old productions.new nodes.new result }
{
    if k.passed.is_some() {
        return k;
    }
    let names = k.names;
    let tags = k.tags;
    let tally = k.tally;
    if crowded(k, row.length) {
        return Docket {
            names: names,
            tags: tags,
            element: k.element,
            tally: tally,
            passed: Some(at),
        };
    }
    let more = entries::enter(tally, k.element, tags.number, row, productions, nodes);
    Docket {
        names: names,
        tags: tags,
        element: k.element,
        tally: more,
        passed: None,
    }
}
