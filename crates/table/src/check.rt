ghost use Rattle.layout.specs.Encoding.{ReadingInvertsWriting};
ghost use Rattle.table.specs.Answers.{Answers};
ghost use Rattle.table.specs.Stages.{HeaderRead};

use crate::checked::Checked;
use crate::lines::read_lines;
use crate::stated::Stated;
use layout::refusal::Refusal;
use layout::sizes::Sizes;

/// The sizes of a table that is as long as they say.
fn read_sizes(bytes: &[u8]) -> Result<Sizes, Refusal>
    ensures { HeaderRead bytes.now result }
{
    let [
        c_low,
        c_high,
        r_low,
        r_high,
        i_low,
        i_high,
        n_low,
        n_high,
        rest @ ..,
    ] = bytes
    else {
        return Err(Refusal::TooShort);
    };
    let sizes = Sizes::new(
        u16::from_le_bytes([*c_low, *c_high]),
        u16::from_le_bytes([*r_low, *r_high]),
        u16::from_le_bytes([*i_low, *i_high]),
        u16::from_le_bytes([*n_low, *n_high]),
    )?;
    if rest.len() != 10 * sizes.axioms as usize {
        return Err(Refusal::WrongLength);
    }
    Ok(sizes)
}

/// Reads and checks a table: the table that the bytes say, or the first refusal that applies.
pub fn check(bytes: &[u8]) -> Result<Checked, Refusal>
    ensures says { Answers bytes.now result }
    ensures inverse { ReadingInvertsWriting }
{
    let sizes = read_sizes(bytes)?;
    // Taken again, since a Result that holds a slice beside `Sizes` gets no generated proof.
    let axioms = read_lines(sizes, &bytes[8..])?;
    let stated = Stated {
        sizes,
        axioms: axioms.as_slice(),
    };
    stated.few_witnesses()?;
    stated.simple_counts()?;
    Ok(Checked { sizes, axioms })
}
