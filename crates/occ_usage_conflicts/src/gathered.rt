//! Uses that are told at one line, each once, as they are found. Of those that are told already nothing is kept: rounds of a
//! replicator that use the same take no memory.
ghost use Rattle.std.specs.Prelude.{◌≡◌, [], IfOk, OnOk};
ghost use Rattle.occ_usage_conflicts.specs.Distinct.{added, gathered as spec_gathered};
ghost use Rattle.occ_usage_conflicts.specs.inside.Linking.{IsLinked};
ghost use Rattle.occ_usage_values.specs.Uses.{at_line};

use super::each_once::{Links, add_new, bucket_of_new};
use super::same::Candidate;
use occ_base::Items;
use occ_project::Location;
use occ_usage_parts::{Chain, Part, Selectors};
use occ_usage_values::Use;
use std::alloc::{AllocError, Global};
use std::marker::Model;

/// Buckets for so many uses are made first.
const FEW: usize = 8;

/// Uses of rounds that are told at one line, each once: in contracts their list.
#[derive(Drop)]
pub struct Gathered {
    links: Links,
    found: Items<Use>,
    /// For each place in a round where the use that stood there last was put.
    places: Items<usize>,
}

impl Model for Gathered {
    ghost use Rattle.std.specs.Prelude.{List};
    ghost use Rattle.occ_usage_conflicts.specs.inside.Linking.{IsLinked};
    ghost use Rattle.occ_usage_values.specs.declared.uses.Use.{Use};

    ghost Value = { List Use };

    ghost view = { λ g. g.found };

    ghost invariant = { λ g. IsLinked g.links.heads.items g.links.before.items g.found };
}

/// Makes room for more uses, if there are more than buckets.
fn make_room(alloc: Global, links: &mut Links, found: &[Use]) -> Result<(), AllocError>
    requires { IsLinked links.old.heads.items links.old.before.items found.now }
    ensures { OnOk result (IsLinked links.new.heads.items links.new.before.items found.now) }
{
    if found.len() <= links.count() {
        return Ok(());
    }
    *links = Links::of(alloc, found)?;
    Ok(())
}

/// The same chain as this: that of the use at the place, if it has the same.
fn shared_chain(chain: &Chain, found: &[Use], place: usize) -> Result<Chain, AllocError>
    ensures { IfOk result (λ same. same ≡ chain.now) }
{
    if let Some(other) = found.get(place) {
        if other.chain.is_same(chain) {
            return other.chain.share();
        }
    }
    chain.share()
}

/// The same use, told at a line. It has the chain of the use at the place, if that is the same.
fn moved(
    alloc: Global,
    one: &Use,
    line: &Location,
    found: &[Use],
    place: usize,
) -> Result<Use, AllocError>
    ensures { IfOk result (λ moved. moved ≡ at_line one.now line.now) }
{
    Ok(Use {
        part: Part {
            root: one.part.root,
            selectors: Selectors::of(alloc, one.part.selectors.as_slice())?,
        },
        kind: one.kind,
        line: line.share()?,
        chain: shared_chain(&one.chain, found, place)?,
    })
}

/// Where the use was put that stood last at this index of a round, or else where the next one will be.
fn place_of(places: &mut Items<usize>, index: usize, next: usize) -> Result<usize, AllocError> {
    if let Some(place) = places.get(index) {
        return Ok(*place);
    }
    places.push(next)?;
    Ok(next)
}

/// The use at this index of a round is put at a place.
fn note(places: &mut Items<usize>, index: usize, place: usize) {
    if index < places.len() {
        places.set(index, place);
    }
}

/// One use more, told at a line, if it is not among those that are found. It may have the chain of the use at the place.
fn add(
    alloc: Global,
    one: &Use,
    line: &Location,
    place: usize,
    links: &mut Links,
    found: &mut Items<Use>,
) -> Result<(), AllocError>
    requires { IsLinked links.old.heads.items links.old.before.items found.old }
    ensures found { OnOk result (found.new ≡ added (at_line one.now line.now) found.old) }
    ensures links { OnOk result (IsLinked links.new.heads.items links.new.before.items found.new) }
{
    let told = Candidate {
        part: &one.part,
        kind: one.kind,
        line,
        chain: &one.chain,
    };
    let Some(bucket) = bucket_of_new(&told, links, found.as_slice()) else {
        return Ok(());
    };
    let told = moved(alloc, one, line, found.as_slice(), place)?;
    add_new(told, bucket, links, found)?;
    make_room(alloc, links, found.as_slice())
}

/// The uses of one round more, told at a line.
fn add_round(
    alloc: Global,
    uses: &[Use],
    line: &Location,
    places: &mut Items<usize>,
    links: &mut Links,
    found: &mut Items<Use>,
) -> Result<(), AllocError>
    requires { IsLinked links.old.heads.items links.old.before.items found.old }
    ensures found { OnOk result (found.new ≡ spec_gathered line.now found.old uses.now) }
    ensures links { OnOk result (IsLinked links.new.heads.items links.new.before.items found.new) }
{
    for (index, one) in uses.iter().enumerate() {
        let next = found.len();
        let place = place_of(places, index, next)?;
        add(alloc, one, line, place, links, found)?;
        if found.len() > next {
            note(places, index, next);
        }
    }
    Ok(())
}

/// These uses, told at a line.
fn add_all(
    alloc: Global,
    uses: &[Use],
    line: &Location,
    links: &mut Links,
    found: &mut Items<Use>,
) -> Result<(), AllocError>
    requires { IsLinked links.old.heads.items links.old.before.items found.old }
    ensures { OnOk result (found.new ≡ spec_gathered line.now found.old uses.now) }
{
    for one in uses {
        let next = found.len();
        add(alloc, one, line, next, links, found)?;
    }
    Ok(())
}

impl Gathered {
    /// No use.
    pub fn nothing(alloc: Global) -> Result<Gathered, AllocError>
        ensures { IfOk result (λ gathered. gathered ≡ []) }
    {
        Ok(Gathered {
            links: Links::none(alloc, FEW)?,
            found: Items::new(alloc),
            places: Items::new(alloc),
        })
    }

    /// With the uses of one round more, told at the line.
    pub fn with(self, alloc: Global, uses: &[Use], line: &Location) -> Result<Gathered, AllocError>
        ensures { IfOk result (λ more. more ≡ spec_gathered line.now self uses.now) }
    {
        let Gathered {
            mut links,
            mut found,
            mut places,
        } = self;
        add_round(alloc, uses, line, &mut places, &mut links, &mut found)?;
        Ok(Gathered {
            links,
            found,
            places,
        })
    }

    /// The uses.
    pub fn into_uses(self) -> Items<Use>
        ensures { result ≡ self }
    {
        let Gathered {
            links,
            found,
            places,
        } = self;
        drop(links);
        drop(places);
        found
    }
}

/// These uses, told at a line, each once.
pub fn gather(alloc: Global, uses: &[Use], line: &Location) -> Result<Items<Use>, AllocError>
    ensures { IfOk result (λ found. found ≡ spec_gathered line.now [] uses.now) }
{
    let mut links = Links::none(alloc, uses.len())?;
    let mut found = Items::from_vec(Vec::with_capacity(alloc, uses.len())?);
    add_all(alloc, uses, line, &mut links, &mut found)?;
    Ok(found)
}
