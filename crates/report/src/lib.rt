// The result of rehearsing a table, as a value whose `Display` is what is printed.
#![tactic(auto)]

ghost use Rattle.std.specs.Prelude.{◌≡◌, Some};
ghost use Rattle.rules.specs.Scopes.{judged};
ghost use Rattle.report.specs.Reports.{reported, report_text};

use rules::check;
use std::fmt;
use table::types::Ty;
use table::{Fault, open};

// Whether the rules accept a table, or how it is refused.
#[derive(Clone, Copy, Debug, PartialEq, Eq, Drop)]
pub struct Report {
    pub verdict: Result<(), Fault>,
}

// What the rules say of a table's bytes.
fn judge(bytes: &[u8]) -> Result<(), Fault>
    ensures { result ≡ judged bytes.now }
{
    let table = open(bytes)?;
    let mut scratch = [Ty::NUMBER; 128];
    check(&table, &mut scratch)
}

// Reads a table of any length.
pub fn rehearse(bytes: &[u8]) -> Report
    ensures { result ≡ reported bytes.now }
{
    Report {
        verdict: judge(bytes),
    }
}

impl fmt::Display for Report {
    ghost output = { λ x. Some (report_text x) };

    fn fmt<W: fmt::Write>(&self, f: &mut fmt::Formatter<W>) -> fmt::Result {
        match self.verdict {
            Ok(()) => f.write_str("accepted"),
            Err(fault) => write!(f, "{fault}"),
        }
    }
}

#[cfg(test)]
mod tests {
    use super::*;
    use std::test::Fail;
    use table::Place;

    // One byte more than a table may have. The refusal by its number, as it is printed.
    #[test]
    fn too_long(rt: HostRuntime) -> Result<(), Fail> {
        let bytes = vec![in rt.alloc(); 1u8; 65_536]?;
        let refusal = Fault::new(1, Place::Byte(0));
        assert_eq!(rt; rehearse(&bytes).verdict, Err(refusal));
        Ok(())
    }
}
