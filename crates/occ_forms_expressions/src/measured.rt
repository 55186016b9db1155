//! A trait for what holds types, whose dimensions are counted, and the same of lists.
ghost use Rattle.occ_forms_expressions.specs.Depth.{data_form_dimensions, element_dimensions, expr_dimensions, greatest, type_form_dimensions};
ghost use Rattle.std.specs.Prelude.{IsTrue, map, ℕ, ◌<◌, ◌↔◌};

use super::depth::{
    data_form_has_many_dimensions, element_has_many_dimensions, expr_has_many_dimensions,
    type_form_has_many_dimensions,
};
use super::tree::{DataForm, Element, Expr, TypeForm};

/// What holds types, whose dimensions are counted.
pub trait Measured: Sized {
    ghost dimensions: { Self → ℕ };

    /// Whether a type in it has more than 64 dimensions. It takes no memory.
    fn has_many_dimensions(&self) -> bool
        ensures { IsTrue result ↔ (64 < dimensions self.now) };
}

impl Measured for Expr {
    ghost dimensions = { expr_dimensions };

    fn has_many_dimensions(&self) -> bool {
        expr_has_many_dimensions(self)
    }
}

impl Measured for Element {
    ghost dimensions = { element_dimensions };

    fn has_many_dimensions(&self) -> bool {
        element_has_many_dimensions(self)
    }
}

impl Measured for TypeForm {
    ghost dimensions = { type_form_dimensions };

    fn has_many_dimensions(&self) -> bool {
        type_form_has_many_dimensions(self)
    }
}

impl Measured for DataForm {
    ghost dimensions = { data_form_dimensions };

    fn has_many_dimensions(&self) -> bool {
        data_form_has_many_dimensions(self)
    }
}

/// Whether one of them has a type of more than 64 dimensions in it.
pub fn any_has_many_dimensions<T: Measured>(items: &[T]) -> bool
    ensures { IsTrue result ↔ (64 < greatest (map T.dimensions items.now)) }
{
    for item in items {
        if item.has_many_dimensions() {
            return true;
        }
    }
    false
}
