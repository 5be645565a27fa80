use course::Progress;
use judging::Overfull;
use layout::refusal::Refusal;
use table::checked::Checked;
use verdict::Judged;

/// A judged table, with the trials made and the passes ended.
#[derive(Drop)]
pub struct Found {
    pub judged: Judged,
    pub done: Progress,
}

/// Why a table is not judged: it is refused, or the ledger has too few rows, and the table is left as checked.
#[derive(Drop)]
pub enum Unjudged {
    Refused(Refusal),
    Overfull(Checked, Overfull),
}

/// What became of a table.
#[derive(Drop)]
pub struct Judgement(pub Result<Found, Unjudged>);
