//! Compares receipts with a journal: the least number at which they disagree.
ghost use Rattle.occ_board.specs.Journal.{last_number};
ghost use Rattle.occ_server.specs.Receipts.{IsLeastOff, ascends as spec_ascends, entry_at, receipts_of};
ghost use Rattle.std.specs.Option.{option_copied};
ghost use Rattle.std.specs.Prelude.{◌≡◌, ◌<◌, ◌^◌, ◌↔◌, IfNone, IfSome, IsTrue, Some, true};

use super::receipt::Receipt;
use occ_board::{Base, Edit, Entry};
use occ_forms::{Source, source_law};

/// Whether two sources are one, which they are if their texts are.
fn is_same_source(a: &Source, b: &Source) -> bool
    ensures { IsTrue result ↔ (a.now ≡ b.now) }
{
    source_law();
    let _lines = a.lines();
    let _others = b.lines();
    a.text() == b.text()
}

/// Whether two edits are one.
fn is_same_edit(a: &Edit, b: &Edit) -> bool
    ensures { IsTrue result ↔ (a.now ≡ b.now) }
{
    match (a, b) {
        (Edit::Added(name, source), Edit::Added(other, text))
        | (Edit::Changed(name, source), Edit::Changed(other, text)) => {
            name == other && is_same_source(source.get(), text.get())
        }
        (Edit::Removed(name), Edit::Removed(other)) => name == other,
        _ => false,
    }
}

/// Whether two entries are one.
pub fn is_same_entry(a: &Entry, b: &Entry) -> bool
    ensures { IsTrue result ↔ (a.now ≡ b.now) }
{
    a.session == b.session && is_same_edit(&a.edit, &b.edit)
}

/// Whether this is the entry that is found.
pub fn is_found(found: Option<&Entry>, entry: &Entry) -> bool
    ensures { IsTrue result ↔ (option_copied found.entry ≡ Some entry.now) }
{
    match found {
        Some(found) => is_same_entry(found, entry),
        None => false,
    }
}

/// What a journal has at a number, where its base has one.
pub fn entry_of<'a>(base: &Base, entries: &'a [Entry], number: u32) -> Option<&'a Entry>
    ensures { option_copied result ≡ entry_at base.now entries.now number }
{
    if number <= base.number {
        return None;
    }
    entries.get((number - base.number) as usize - 1)
}

/// Whether this is the receipt of the entry with this number.
fn is_of(receipt: &Receipt, number: u32, entry: &Entry) -> bool
    ensures { IsTrue result ↔ (receipt.now ≡ record { number = number; entry = entry.now }) }
{
    receipt.number() == number && is_same_entry(receipt.entry(), entry)
}

/// Whether the numbers go up, each greater than the one before.
pub fn ascends(receipts: &[Receipt]) -> bool
    ensures { result ≡ spec_ascends receipts.now }
{
    let mut last = 0;
    for receipt in receipts {
        if receipt.number() <= last {
            return false;
        }
        last = receipt.number();
    }
    true
}

/// The least number at which receipts and journal do not have the same, if there is one.
pub fn first_off(receipts: &[Receipt], base: &Base, entries: &[Entry]) -> Option<u32>
    requires order { spec_ascends receipts.now ≡ true }
    requires few { last_number base.now entries.now < 2 ^ 32 }
    ensures none { IfNone result (receipts.now ≡ receipts_of base.now entries.now) }
    ensures off { IfSome result (λ n. IsLeastOff receipts.now base.now entries.now n) }
{
    for (index, entry) in entries.iter().enumerate() {
        let number = base.number + index as u32 + 1;
        match receipts.get(index) {
            None => return Some(number),
            Some(receipt) => {
                if !is_of(receipt, number, entry) {
                    return Some(number.min(receipt.number()));
                }
            }
        }
    }
    match receipts.get(entries.len()) {
        Some(receipt) => Some(receipt.number()),
        None => None,
    }
}
