//! Whether a form has a type of over 64 dimensions, form by form.
ghost use Rattle.occ_forms.specs.Depth.{action_dimensions, construct_dimensions, detail_dimensions, form_dimensions, guarded_dimensions, input_dimensions, input_item_dimensions, output_item_dimensions, part_dimensions, replicator_dimensions};
ghost use Rattle.std.specs.Prelude.{IsTrue, ◌<◌, ◌↔◌};

use super::tree::{
    Action, Construct, Detail, Form, Guarded, Input, InputItem, OutputItem, PartForm, Replicator,
};
use occ_forms_expressions::{
    Measured, any_has_many_dimensions, array_has_many_dimensions, counted_has_many_dimensions,
    prefixed_has_many_dimensions,
};

impl Measured for OutputItem {
    ghost dimensions = { output_item_dimensions };

    fn has_many_dimensions(&self) -> bool {
        match self {
            OutputItem::Plain(expr) => expr.has_many_dimensions(),
            OutputItem::Counted(count, array) => {
                count.get().has_many_dimensions() || array.get().has_many_dimensions()
            }
        }
    }
}

impl Measured for InputItem {
    ghost dimensions = { input_item_dimensions };

    fn has_many_dimensions(&self) -> bool {
        match self {
            InputItem::Plain(element) => element.has_many_dimensions(),
            InputItem::Counted(count, array) => {
                count.get().has_many_dimensions() || array.get().has_many_dimensions()
            }
        }
    }
}

impl Measured for Detail {
    ghost dimensions = { detail_dimensions };

    fn has_many_dimensions(&self) -> bool {
        match self {
            Detail::Element(element) => element.has_many_dimensions(),
            Detail::Counted(count, array) => {
                count.has_many_dimensions() || array.has_many_dimensions()
            }
            Detail::Array(first, more, _) => array_has_many_dimensions(first, more.as_slice()),
            Detail::Builtin(dimensions, builtin) => {
                prefixed_has_many_dimensions(dimensions.as_slice(), builtin.get())
            }
            Detail::CountedType(count, component) => {
                count.has_many_dimensions() || counted_has_many_dimensions(component)
            }
        }
    }
}

impl Measured for Input {
    ghost dimensions = { input_dimensions };

    fn has_many_dimensions(&self) -> bool {
        match self {
            Input::Plain(element, first, more) => {
                element.has_many_dimensions()
                    || first.has_many_dimensions()
                    || any_has_many_dimensions(more.as_slice())
            }
            Input::After(element, expr) => {
                element.has_many_dimensions() || expr.has_many_dimensions()
            }
            Input::Tagged(element, _, items) => {
                element.has_many_dimensions() || any_has_many_dimensions(items.as_slice())
            }
        }
    }
}

impl Measured for Action {
    ghost dimensions = { action_dimensions };

    fn has_many_dimensions(&self) -> bool {
        match self {
            Action::Skip | Action::Stop => false,
            Action::Assignment(target, targets, value, values) => {
                target.has_many_dimensions()
                    || any_has_many_dimensions(targets.as_slice())
                    || value.has_many_dimensions()
                    || any_has_many_dimensions(values.as_slice())
            }
            Action::Output(element, first, more) => {
                element.has_many_dimensions()
                    || first.has_many_dimensions()
                    || any_has_many_dimensions(more.as_slice())
            }
            Action::Input(input) => input.has_many_dimensions(),
        }
    }
}

/// The same of a replicator, where there is one.
fn replicator_has_many_dimensions(replicator: &Option<Replicator>) -> bool
    ensures { IsTrue result ↔ (64 < replicator_dimensions replicator.now) }
{
    match replicator {
        Some(found) => found.base.has_many_dimensions() || found.count.has_many_dimensions(),
        None => false,
    }
}

impl Measured for Construct {
    ghost dimensions = { construct_dimensions };

    fn has_many_dimensions(&self) -> bool {
        match self {
            Construct::Replicable(_, replicator) => replicator_has_many_dimensions(replicator),
            Construct::While(expr) | Construct::Case(expr) => expr.has_many_dimensions(),
            Construct::CaseInput(element) => element.has_many_dimensions(),
        }
    }
}

impl Measured for Guarded {
    ghost dimensions = { guarded_dimensions };

    fn has_many_dimensions(&self) -> bool {
        match self {
            Guarded::Skip => false,
            Guarded::Input(input) => input.has_many_dimensions(),
            Guarded::CaseInput(element) => element.has_many_dimensions(),
        }
    }
}

impl Measured for PartForm {
    ghost dimensions = { part_dimensions };

    fn has_many_dimensions(&self) -> bool {
        match self {
            PartForm::Case
            | PartForm::Else
            | PartForm::ValueOf
            | PartForm::Record
            | PartForm::PackedRecord => false,
            PartForm::Result(expr, more) => {
                expr.has_many_dimensions() || any_has_many_dimensions(more.as_slice())
            }
            PartForm::Guard(expr, guarded) => {
                expr.has_many_dimensions() || guarded.get().has_many_dimensions()
            }
        }
    }
}

impl Measured for Form {
    ghost dimensions = { form_dimensions };

    fn has_many_dimensions(&self) -> bool {
        match self {
            Form::Specified(specified) => specified.has_many_dimensions(),
            Form::Close => false,
            Form::Action(action) => action.has_many_dimensions(),
            Form::Construct(construct) => construct.has_many_dimensions(),
            Form::Part(part) => part.has_many_dimensions(),
            Form::Expressions(expr, more) => {
                expr.has_many_dimensions() || any_has_many_dimensions(more.as_slice())
            }
            Form::Tagged(_, first, more) => {
                first.has_many_dimensions() || any_has_many_dimensions(more.as_slice())
            }
        }
    }
}
