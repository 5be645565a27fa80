// How a fault travels up: each layer adds where it came about, and `From` makes its own fault of that.
ghost use Rattle.std.specs.Prelude.{◌≡◌};
ghost use Rattle.world.specs.declared.fault.Lacking.TheVariants.{Rows};
ghost use Rattle.world.specs.Faults.{placed};

use ledger::Full;

/// What a refused trial lacks: a term beyond the 48th, or rows, with the ledger's fault.
#[derive(Clone, Copy, PartialEq, Eq, Debug)]
pub enum Lacking {
    Terms,
    Rows(Full),
}

impl From<Full> for Lacking {
    ghost from_gives = { λ full lacking. lacking ≡ Rows full };

    fn from(full: Full) -> Lacking {
        Lacking::Rows(full)
    }
}

/// An error with the place where it came about.
#[derive(Clone, Copy, PartialEq, Eq, Debug)]
pub struct In<E, P> {
    pub error: E,
    pub place: P,
}

/// Gives the error of a result its place.
pub fn within<T, E, P: Drop>(res: Result<T, E>, place: P) -> Result<T, In<E, P>>
    ensures { result ≡ placed res place }
{
    res.map_err(|error| In { error, place })
}
