ghost use Rattle.std.specs.Prelude.{◌≡◌};
ghost use Rattle.judgement.specs.Answering.{shortened};

use crate::judgement::{Judgement, Unjudged};

/// What became of a table, without the table and without the counts.
impl From<&Judgement> for verdict::Judgement {
    ghost from_gives = { λ judgement short. short ≡ shortened judgement.now.0 };

    fn from(judgement: &Judgement) -> verdict::Judgement {
        match &judgement.0 {
            Ok(found) => verdict::Judgement::Found(found.judged.verdict()),
            Err(Unjudged::Refused(refusal)) => verdict::Judgement::Refused(*refusal),
            Err(Unjudged::Overfull(_, overfull)) => verdict::Judgement::Overfull(overfull.place()),
        }
    }
}
