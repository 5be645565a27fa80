ghost use Rattle.std.specs.Prelude.{◌≡◌};
ghost use Rattle.theory.specs.Roles.{name_of};
ghost use Rattle.table.specs.Meaning.{expression_in};

use names::Role;

/// A role or its inverse.
#[derive(Clone, Copy, PartialEq, Eq, Debug)]
pub enum Expression {
    Plain(Role),
    Inverse(Role),
}

impl Expression {
    /// The role without its direction.
    pub(crate) fn role(self) -> Role
        ensures { result.number ≡ name_of (expression_in self) }
    {
        match self {
            Expression::Plain(role) | Expression::Inverse(role) => role,
        }
    }
}
