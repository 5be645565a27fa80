use crate::judgement::Judgement;

/// A judgement, and the ledger that it was made with.
#[derive(Drop)]
pub struct Answer<L> {
    pub judgement: Judgement,
    pub ledger: L,
}
