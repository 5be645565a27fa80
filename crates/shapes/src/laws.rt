// The theorems of graphs: each is the contract of a function that does nothing.
ghost use Rattle.shapes.specs.Computed.{Computes};
ghost use Rattle.shapes.specs.Examples.{Examples};
ghost use Rattle.shapes.specs.Heights.{OneHeight};
ghost use Rattle.shapes.specs.Laws.{Antisymmetric, UniquePaths};
ghost use Rattle.shapes.specs.Shapes.{OneShape};
ghost use Rattle.shapes.specs.Surveys.{OneSurvey};

/// In a forest two paths between the same two nodes are equal.
pub fn paths_are_unique()
    ensures { UniquePaths }
{}

/// Without directed cycles, two nodes that lead to one another are equal.
pub fn order_stands()
    ensures { Antisymmetric }
{}

/// A graph has one shape.
pub fn shape_is_one()
    ensures { OneShape }
{}

/// A graph has one height.
pub fn height_is_one()
    ensures { OneHeight }
{}

/// Graphs that are alike, with the same nodes marked, have one shape and one height.
pub fn survey_is_one()
    ensures { OneSurvey }
{}

/// The tests that compute tell the truth.
pub fn tests_are_true()
    ensures { Computes }
{}

/// Graphs that are written out.
pub fn examples_stand()
    ensures { Examples }
{}
