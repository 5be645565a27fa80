ghost use Rattle.std.specs.Prelude.{◌≡◌, Some};
ghost use Rattle.inspection.specs.Notation.{inspected};
ghost use Rattle.inspection.specs.Reports.{report_text};

use crate::lines::Lines;
use layout::refusal::Refusal;
use std::fmt;
use std::fmt::{Display, Formatter, Write};
use table::check::check;
use table::checked::Checked;

/// What inspecting a table found, to be shown as text.
#[derive(Drop)]
pub struct Report(pub Result<Checked, Refusal>);

impl Display for Report {
    ghost output = { λ r. Some (report_text r) };

    fn fmt<W: Write>(&self, f: &mut Formatter<W>) -> fmt::Result {
        match &self.0 {
            Ok(table) => f.write(Lines(table)),
            Err(refusal) => writeln!(f, "{refusal}"),
        }
    }
}

/// Reads a table, and says what it is or why it is refused.
pub fn inspect(bytes: &[u8]) -> Report
    ensures { report_text result ≡ inspected bytes.now }
{
    Report(check(bytes))
}
