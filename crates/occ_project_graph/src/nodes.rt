//! Nodes of a graph, which are kept by their numbers and seen by their indices.
ghost use Rattle.occ_project_graph.specs.inside.Numbering.{indexed};
ghost use Rattle.std.specs.Prelude.{◌≡◌, ◌<◌, get_or, length};

use super::search::number_at;
use std::marker::Model;

/// Nodes of a graph. In contracts they are their indices.
#[derive(Drop)]
pub struct Nodes<'a> {
    /// Their numbers, or themselves.
    numbers: &'a [usize],
    /// Of each number the index of its node, if they are not the numbers themselves.
    indices: Option<&'a [usize]>,
}

impl<'a> Model for Nodes<'a> {
    ghost use Rattle.occ_project_graph.specs.inside.Numbering.{indices_of};
    ghost use Rattle.std.specs.Option.{option_copied};
    ghost use Rattle.std.specs.Coded.{coded_list, coded_ℕ};
    ghost use Rattle.std.specs.Prelude.{List, ℕ};

    ghost Value = { List ℕ };

    ghost coded = { coded_list coded_ℕ };

    ghost view = { λ nodes. indices_of (option_copied nodes.indices) nodes.numbers.now };
}

impl<'a> Nodes<'a> {
    /// The nodes of these numbers.
    pub(crate) fn of(numbers: &'a [usize], indices: &'a [usize]) -> Nodes<'a>
        ensures { result ≡ indexed indices.now numbers.now }
    {
        Nodes {
            numbers,
            indices: Some(indices),
        }
    }

    /// The nodes of these indices.
    pub fn of_indices(indices: &'a [usize]) -> Nodes<'a>
        ensures { result ≡ indices.now }
    {
        Nodes {
            numbers: indices,
            indices: None,
        }
    }

    /// How many they are.
    pub fn count(&self) -> usize
        ensures { result ≡ length self.now }
    {
        self.numbers.len()
    }

    /// The one that stands at a place of these.
    pub fn at(&self, place: usize) -> usize
        requires { place < length self.now }
        ensures { result ≡ get_or self.now place 0 }
    {
        let number = number_at(self.numbers, place);
        match self.indices {
            Some(indices) => number_at(indices, number),
            None => number,
        }
    }
}
