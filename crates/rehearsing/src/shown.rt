// How a report is printed: a refusal, or the numbers, one to a line, and then the counts.
ghost use Rattle.std.specs.Prelude.{◌≡◌, Some};
ghost use Rattle.std.specs.Fmt.{WritesOnOk};
ghost use Rattle.rehearsing.specs.Reports.{lines, meant, report_text};

use super::rehearsal::Report;
use std::fmt;

fn write_lines<W: fmt::Write>(f: &mut fmt::Formatter<W>, numbers: &[u32]) -> fmt::Result
    ensures { WritesOnOk W.Write.write_str_gives f.old result (lines numbers.now) f.new }
{
    for number in numbers {
        writeln!(f, "{}", *number)?;
    }
    Ok(())
}

impl fmt::Display for Report {
    ghost output = { λ x. Some (report_text (meant x)) };

    fn fmt<W: fmt::Write>(&self, f: &mut fmt::Formatter<W>) -> fmt::Result {
        match &self.outcome {
            Err(fault) => write!(f, "{fault}"),
            Ok(rehearsal) => {
                write_lines(f, rehearsal.numbers.all())?;
                write!(f, "{}", rehearsal.tally)
            }
        }
    }
}
