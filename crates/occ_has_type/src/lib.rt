//! What type an expression has, in the words of the language, and which typed trees are of a form: relations, and the laws that
//! the rules of types give exactly these.
#![tactic(auto)]

mod laws;

pub use laws::{
    element_tree_law, element_type_law, expr_tree_law, expr_type_law, worked_law, written_type_law,
};
