//! Counts the dimensions of types in lines of specification, against the limit of 64.
ghost use Rattle.occ_forms.specs.SpecificationDepth.{formal_group_dimensions, function_head_dimensions, head_dimensions, item_dimensions, perhaps_type_dimensions, specification_dimensions, specified_dimensions, value_group_dimensions};
ghost use Rattle.std.specs.Prelude.{IsTrue, ◌<◌, ◌↔◌};

use super::specification_tree::{
    FormalGroup, FunctionHead, Head, ItemForm, Specification, Specified, ValueGroup,
};
use occ_forms_expressions::{
    Measured, TypeForm, any_has_many_dimensions, counted_has_many_dimensions,
};

impl Measured for ItemForm {
    ghost dimensions = { item_dimensions };

    fn has_many_dimensions(&self) -> bool {
        match self {
            ItemForm::Plain(form) => form.has_many_dimensions(),
            ItemForm::Counted(count, form) => {
                count.has_many_dimensions() || counted_has_many_dimensions(form)
            }
        }
    }
}

impl Measured for ValueGroup {
    ghost dimensions = { value_group_dimensions };

    fn has_many_dimensions(&self) -> bool {
        self.form.has_many_dimensions()
    }
}

impl Measured for FormalGroup {
    ghost dimensions = { formal_group_dimensions };

    fn has_many_dimensions(&self) -> bool {
        match self {
            FormalGroup::Value(group) => group.has_many_dimensions(),
            FormalGroup::Plain(form, _, _) => form.has_many_dimensions(),
        }
    }
}

/// The same of a type, where there is one.
fn perhaps_type_has_many_dimensions(form: &Option<TypeForm>) -> bool
    ensures { IsTrue result ↔ (64 < perhaps_type_dimensions form.now) }
{
    match form {
        Some(form) => form.has_many_dimensions(),
        None => false,
    }
}

impl Measured for FunctionHead {
    ghost dimensions = { function_head_dimensions };

    fn has_many_dimensions(&self) -> bool {
        self.first.has_many_dimensions()
            || any_has_many_dimensions(self.more.as_slice())
            || any_has_many_dimensions(self.formals.as_slice())
    }
}

impl Measured for Specification {
    ghost dimensions = { specification_dimensions };

    fn has_many_dimensions(&self) -> bool {
        match self {
            Specification::Declaration(form, _, _) => form.has_many_dimensions(),
            Specification::Abbreviation(form, _, element) => {
                perhaps_type_has_many_dimensions(form) || element.has_many_dimensions()
            }
            Specification::Value(form, _, expr) => {
                perhaps_type_has_many_dimensions(form) || expr.has_many_dimensions()
            }
            Specification::Retyped(_, form, _, element) => {
                form.has_many_dimensions() || element.has_many_dimensions()
            }
            Specification::RetypedValue(_, form, _, expr) => {
                form.has_many_dimensions() || expr.has_many_dimensions()
            }
            Specification::Protocol(_, item, more) => {
                item.has_many_dimensions() || any_has_many_dimensions(more.as_slice())
            }
            Specification::DataType(_, form) => form.has_many_dimensions(),
            Specification::Function(head, expr, more) => {
                head.get().has_many_dimensions()
                    || expr.has_many_dimensions()
                    || any_has_many_dimensions(more.as_slice())
            }
        }
    }
}

impl Measured for Head {
    ghost dimensions = { head_dimensions };

    fn has_many_dimensions(&self) -> bool {
        match self {
            Head::Procedure(_, _, groups) => any_has_many_dimensions(groups.as_slice()),
            Head::Function(head) => head.has_many_dimensions(),
            Head::Protocol(_) | Head::DataType(_) => false,
        }
    }
}

impl Measured for Specified {
    ghost dimensions = { specified_dimensions };

    fn has_many_dimensions(&self) -> bool {
        match self {
            Specified::Line(specification) => specification.has_many_dimensions(),
            Specified::Head(head) => head.has_many_dimensions(),
        }
    }
}
