// The line of an input, and whether it is printable.
ghost use Rattle.std.specs.Prelude.{◌≡◌};
ghost use Rattle.model.specs.Lists.{every};
ghost use Rattle.model.specs.Program.{printable};
ghost use Rattle.sequences_forms.specs.Forms.{LineSize};

pub const LINE_FEED: u8 = 10;

// How long an input is without a line feed at its end.
#[tactic(auto, using(crate::specs::FormCases::no_line, crate::specs::FormCases::line_fed, crate::specs::FormCases::line_whole))]
pub fn line_size(input: &[u8]) -> usize
    ensures { LineSize input.now result }
{
    let Some(last) = input.last() else {
        return 0;
    };
    if *last == LINE_FEED {
        return input.len() - 1;
    }
    input.len()
}

// Whether all characters are printable. It looks at all of them.
pub fn is_printable(line: &[u8]) -> bool
    ensures { result ≡ every printable line.now }
{
    let mut ok = true;
    for c in line {
        ok = ok & (32 <= *c) & (*c <= 126);
    }
    ok
}
