ghost use Rattle.std.specs.Prelude.{Some};
ghost use Rattle.shapes.specs.Naming.{shape_text};

use crate::shape::Shape;
use std::fmt::{Display, Formatter, Result, Write};

/// A shape by its name.
impl Display for Shape {
    ghost output = { λ s. Some (shape_text s) };

    fn fmt<W: Write>(&self, f: &mut Formatter<W>) -> Result {
        match self {
            Shape::Forest => f.write_str("forest"),
            Shape::Acyclic => f.write_str("acyclic"),
            Shape::Cyclic => f.write_str("cyclic"),
        }
    }
}
