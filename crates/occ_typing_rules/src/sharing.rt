//! How much there is against how much a type takes, with one `[]` or several. What is not known fits.
#![tactic(auto, using(crate::proofs::Folds::dimension_rules))]

ghost use Rattle.std.specs.Prelude.{◌≡◌, ◌≤◌, IfSome};
ghost use Rattle.occ_typing_rules.specs.Dimensions.{dimensions};
ghost use Rattle.occ_typing_rules.specs.Sharing.{even_if as spec_even_if, one_more as spec_one_more, opens_in as spec_opens_in, rest as spec_rest, share_of as spec_share_of, shared as spec_shared, times as spec_times, whole as spec_whole};

use occ_types::OccType;

/// The `[]` among the dimensions of a type.
#[derive(Clone, Copy)]
pub enum Opens {
    None,
    One,
    Several,
}

/// How what there is goes into what a type takes.
#[derive(Clone, Copy)]
pub enum Share {
    /// It does, and nothing more is known of the `[]` of the type.
    Even,
    /// It does, with so many components in place of the one `[]`.
    Sized(u32),
    /// It does not.
    Uneven,
}

/// So many times; not known where it is more than 2,147,483,647.
fn times(count: Option<u32>, amount: Option<u32>) -> Option<u32>
    ensures { result ≡ spec_times count amount }
{
    let (Some(count), Some(amount)) = (count, amount) else {
        return None;
    };
    let product = u64::from(count) * u64::from(amount);
    if product <= 2_147_483_647 {
        Some(product as u32)
    } else {
        None
    }
}

/// How many units a type has after its dimensions.
pub fn whole(of: &OccType, unit: Option<u32>) -> Option<u32>
    ensures { result ≡ spec_whole (dimensions of.now) unit }
{
    match of {
        OccType::Array(count, inner) => times(*count, whole(inner.get(), unit)),
        OccType::Primitive(_)
        | OccType::Record(_, _)
        | OccType::Named(_, _)
        | OccType::Channel(_)
        | OccType::Timer
        | OccType::Unknown => unit,
    }
}

/// How many units a type has after its dimensions, each `[]` counted once.
pub fn rest(of: &OccType, unit: Option<u32>) -> Option<u32>
    ensures { result ≡ spec_rest (dimensions of.now) unit }
{
    match of {
        OccType::Array(None, inner) => rest(inner.get(), unit),
        OccType::Array(Some(count), inner) => times(Some(*count), rest(inner.get(), unit)),
        OccType::Primitive(_)
        | OccType::Record(_, _)
        | OccType::Named(_, _)
        | OccType::Channel(_)
        | OccType::Timer
        | OccType::Unknown => unit,
    }
}

fn one_more(opens: Opens) -> Opens
    ensures { result ≡ spec_one_more opens }
{
    match opens {
        Opens::None => Opens::One,
        Opens::One | Opens::Several => Opens::Several,
    }
}

/// The `[]` among the dimensions of a type.
pub fn opens_in(of: &OccType) -> Opens
    ensures { result ≡ spec_opens_in (dimensions of.now) }
{
    match of {
        OccType::Array(None, inner) => one_more(opens_in(inner.get())),
        OccType::Array(Some(_), inner) => opens_in(inner.get()),
        OccType::Primitive(_)
        | OccType::Record(_, _)
        | OccType::Named(_, _)
        | OccType::Channel(_)
        | OccType::Timer
        | OccType::Unknown => Opens::None,
    }
}

fn even_if(test: bool) -> Share
    ensures { result ≡ spec_even_if test }
{
    if test { Share::Even } else { Share::Uneven }
}

/// What is known of both.
fn shared(opens: Opens, rest: u32, amount: u32) -> Share
    ensures { result ≡ spec_shared opens rest amount }
{
    if let Opens::None = opens {
        return even_if(rest == amount);
    }
    if rest == 0 {
        return even_if(amount == 0);
    }
    if amount % rest != 0 {
        return Share::Uneven;
    }
    match opens {
        Opens::One => Share::Sized(amount / rest),
        Opens::None | Opens::Several => Share::Even,
    }
}

/// How an amount goes into a type with these `[]` that takes so much besides. What is not known fits.
pub fn share_of(opens: Opens, rest: Option<u32>, amount: Option<u32>) -> Share
    ensures { result ≡ spec_share_of opens rest amount }
{
    match (rest, amount) {
        (Some(rest), Some(amount)) => shared(opens, rest, amount),
        _ => Share::Even,
    }
}
