// A sheet printed as text into lent memory: its rules, as they can be read, mended and written as a sheet again.

#![tactic(auto)]

ghost use Rattle.printing.specs.Printed.{PrintedAs};
ghost use Rattle.prints.specs.KeepsSix.{KeepsSix};

// The number: 0, 1 to 6 as the checker's, 42 or 43; and the length written with 0, the length needed with 43.
#[derive(Clone, Copy)]
pub struct Printed {
    pub number: u8,
    pub count: usize,
}

// Prints a sheet that keeps numbers 1 to 6. A dry run tells the length first, so that nothing is written where it does not fit.
fn print_kept(sheet: &[u8], text: &mut [u8]) -> Printed
    requires { KeepsSix sheet.now }
    ensures { PrintedAs sheet.now text.old result.number result.count text.new }
{
    let l = layout::layout_of(sheet);
    if !hoards::strings_fit(sheet, l) {
        return Printed {
            number: 42,
            count: 0,
        };
    }
    let needed = lines::put_rules(sheet, l, text, 0, false);
    if text.len() < needed {
        return Printed {
            number: 43,
            count: needed,
        };
    }
    let written = lines::put_rules(sheet, l, text, 0, true);
    Printed {
        number: 0,
        count: written,
    }
}

// Prints a sheet as text. A nonterminal without a production is no hindrance: the text is there to be mended.
pub fn print(sheet: &[u8], text: &mut [u8]) -> Printed
    ensures { PrintedAs sheet.now text.old result.number result.count text.new }
{
    let number = sheet::defect(sheet);
    if number == 0 {
        return print_kept(sheet, text);
    }
    if number == 7 {
        return print_kept(sheet, text);
    }
    Printed {
        number: number,
        count: 0,
    }
}
