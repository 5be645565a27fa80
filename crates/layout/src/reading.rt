ghost use Rattle.std.specs.Prelude.{[], map};
ghost use Rattle.layout.specs.Meaning.{line_in, table_of};
ghost use Rattle.layout.specs.Forms.{code_of};
ghost use Rattle.layout.specs.Limits.{LineTaken, WordsSay};

use crate::axiom::Axiom;
use crate::form::Form;
use crate::line::Line;
use crate::refusal::Refusal;
use crate::sizes::Sizes;

/// The axiom that a line says, if its arguments are declared and its other words are 0.
fn axiom_of(sizes: Sizes, form: Form, line: Line) -> Option<Axiom>
    ensures { WordsSay (table_of sizes []) (code_of form) (line_in line) result }
{
    let Line { p, q, r, s, .. } = line;
    let axiom = match (form, q, r, s) {
        (Form::SubRole, _, 0, 0) => Axiom::SubRole(sizes.role(p)?, sizes.role(q)?),
        (Form::SubInverse, _, 0, 0) => Axiom::SubInverse(sizes.role(p)?, sizes.role(q)?),
        (Form::Transitive, 0, 0, 0) => Axiom::Transitive(sizes.role(p)?),
        (Form::Conjunction, _, _, _) => Axiom::Conjunction(
            sizes.concept(p)?,
            sizes.concept(q)?,
            sizes.concept(r)?,
            sizes.concept(s)?,
        ),
        (Form::Nominal, _, 0, 0) => Axiom::Nominal(sizes.concept(p)?, sizes.individual(q)?),
        (Form::Filler, _, _, 0) => {
            Axiom::Filler(sizes.role(p)?, sizes.concept(q)?, sizes.concept(r)?)
        }
        (Form::AtMostOne, _, _, 0) => {
            Axiom::AtMostOne(sizes.concept(p)?, sizes.role(q)?, sizes.concept(r)?)
        }
        (Form::Exists, _, _, 0) => {
            Axiom::Exists(sizes.concept(p)?, sizes.role(q)?, sizes.concept(r)?)
        }
        (Form::Range, _, 0, 0) => Axiom::Range(sizes.role(p)?, sizes.concept(q)?),
        (Form::HasValue, _, _, 0) => {
            Axiom::HasValue(sizes.concept(p)?, sizes.role(q)?, sizes.individual(r)?)
        }
        (Form::OpenConcept, 0, 0, 0) => Axiom::OpenConcept(sizes.concept(p)?),
        (Form::OpenRole, 0, 0, 0) => Axiom::OpenRole(sizes.role(p)?),
        _ => return None,
    };
    Some(axiom)
}

/// The axiom that the line of this place says, or the first test that it fails.
pub fn read_line(sizes: Sizes, earlier: &[Line], place: u8, line: Line) -> Result<Axiom, Refusal>
    ensures { LineTaken (table_of sizes []) (map line_in earlier.now) place (line_in line) result }
{
    let form = Form::try_from(line.form).map_err(|_| Refusal::UnknownForm(place))?;
    let axiom = axiom_of(sizes, form, line).ok_or(Refusal::BadArgument(place))?;
    if earlier.contains(&line) {
        return Err(Refusal::Repeated(place));
    }
    Ok(axiom)
}
