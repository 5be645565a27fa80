ghost use Rattle.std.specs.Prelude.{◌≡◌, ◌*◌, ◌≤◌, [], length, drop, IfOk};
ghost use Rattle.layout.specs.Meaning.{line_in, table_of};
ghost use Rattle.layout.specs.Words.{word_at};
ghost use Rattle.table.specs.Stages.{line_from, LinesRead};

use crate::checked::MOST;
use arrayvec::ArrayVec;
use layout::axiom::Axiom;
use layout::line::Line;
use layout::reading::read_line;
use layout::refusal::Refusal;
use layout::sizes::Sizes;

/// A form code, and the codes after it.
fn split_form(forms: &[u8]) -> (u16, &[u8])
    requires { 2 ≤ length forms.now }
    ensures form { result.0 ≡ word_at forms.now 0 }
    ensures rest { result.1.now ≡ drop 2 forms.now }
{
    let [low, high, rest @ ..] = forms else {
        unreachable!()
    };
    (u16::from_le_bytes([*low, *high]), rest)
}

/// The line of a form code and the first record, and the records after it.
fn split_record(form: u16, records: &[u8]) -> (Line, &[u8])
    requires { 8 ≤ length records.now }
    ensures line { line_in result.0 ≡ line_from form records.now }
    ensures rest { result.1.now ≡ drop 8 records.now }
{
    let [
        p_low,
        p_high,
        q_low,
        q_high,
        r_low,
        r_high,
        s_low,
        s_high,
        rest @ ..,
    ] = records
    else {
        unreachable!()
    };
    let line = Line {
        form,
        p: u16::from_le_bytes([*p_low, *p_high]),
        q: u16::from_le_bytes([*q_low, *q_high]),
        r: u16::from_le_bytes([*r_low, *r_high]),
        s: u16::from_le_bytes([*s_low, *s_high]),
    };
    (line, rest)
}

/// Reads the lines of a table, each of which passes its three tests before the next is looked at.
pub(crate) fn read_lines(sizes: Sizes, rest: &[u8]) -> Result<ArrayVec<Axiom, MOST>, Refusal>
    requires { length rest.now ≡ 10 * sizes.axioms }
    ensures read { LinesRead (table_of sizes []) rest.now sizes.axioms result }
    ensures counted { IfOk result (λ v. length v.items ≡ sizes.axioms) }
{
    // No chunks: that patterns take each record apart, with named bytes and the rest, is a rule of the project.
    let mut forms = rest;
    let mut records = &rest[2 * sizes.axioms as usize..];
    let mut lines: ArrayVec<Line, MOST> = ArrayVec::new();
    let mut axioms = ArrayVec::new();
    for place in 0..sizes.axioms as u8 {
        let (form, later_forms) = split_form(forms);
        let (line, later_records) = split_record(form, records);
        axioms.push(read_line(sizes, lines.as_slice(), place, line)?);
        lines.push(line);
        forms = later_forms;
        records = later_records;
    }
    Ok(axioms)
}
