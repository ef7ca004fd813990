//! Nests of loops and statements alone as shapes, whose runs and orders have laws.
//!
//! Proved (laws): a nest of `nest` without IF, label and jump, whose loops go from 1 by 1, is as a statement exactly
//! what its shape stands for (`shape_of_nest`, `statement`), and the shape is that of a nest (`nest`), where no two
//! loops have one number. Statements go by their places in text order, loops by the numbers of the nest.
//!
//! **A statement of a shape goes by its place**, which counts from 0, in the list of the nest's statements.
ghost use Rattle.nest_order.specs.shapes.Shapes.{ShapeIsNest, StatementIsOfShape};

/// A nest without IF, label or jump, whose loops go from 1 by 1, stands for the statements of its shape, which is that
/// of a nest.
pub fn shape_of_nest()
    ensures statement { StatementIsOfShape }
    ensures nest { ShapeIsNest }
{}
