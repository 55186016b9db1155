//! Types and protocols, with every name resolved to its definition. Parts are shared.
use super::part_name::PartName;
use super::value::Primitive;
use occ_base::{Items, Name, Shared};

/// A type, with each name in it resolved to its definition. Types that hold a type share it.
#[cycle(types)]
#[derive(Drop)]
pub enum OccType {
    Primitive(Primitive),
    /// `[n]T`, or `[]T` where there is no n.
    Array(Option<u32>, Shared<OccType>),
    Record(Packing, Items<Field>),
    /// A type with a name, and the type that it is defined to be.
    Named(Name, Shared<OccType>),
    Channel(Shared<Protocol>),
    Timer,
    /// The type of a field whose line has a fault.
    Unknown,
}

/// Whether a record is PACKED.
#[derive(Clone, Copy, PartialEq, Eq)]
pub enum Packing {
    Packed,
    Plain,
}

/// A field of a record.
#[cycle(types)]
#[derive(Drop)]
pub struct Field {
    pub name: PartName,
    pub of: Shared<OccType>,
}

/// What a channel carries.
#[cycle(types)]
#[derive(Drop)]
pub enum Protocol {
    /// ANY
    Any,
    /// Items that follow one another; a simple protocol has one.
    Sequence(Items<Item>),
    Variant(Items<Tag>),
    /// A protocol with a name, and what it is defined to be.
    Defined(Name, Shared<Protocol>),
}

/// An item of a protocol.
#[cycle(types)]
#[derive(Drop)]
pub enum Item {
    Value(Shared<OccType>),
    /// `T::[]U`: a count of type T, and so many values of type U.
    Counted(Primitive, Shared<OccType>),
}

/// A variant of a protocol: its tag, and the items that follow the tag.
#[cycle(types)]
#[derive(Drop)]
pub struct Tag {
    pub name: PartName,
    pub items: Items<Item>,
}
