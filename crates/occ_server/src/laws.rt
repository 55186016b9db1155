//! Laws of receipts and journals.
ghost use Rattle.occ_board.specs.declared.base.Base.{Base as ABase};
ghost use Rattle.occ_board.specs.declared.entry.Entry.{Entry as AnEntry};
ghost use Rattle.occ_server.specs.Receipts.{IsLeastOff, Numbered, ascends, entry_at, receipts_of, reported_at};
ghost use Rattle.std.specs.Prelude.{◌≡◌, ℕ, List, true};

/// The receipts of all edits of a journal have at each number what the journal has, and only they have among those whose
/// numbers go up; theirs do. There is one least number at which receipts and journal do not have the same, if there is any.
pub fn receipts_law()
    ensures same { (base : ABase) (es : List AnEntry) (n : ℕ) → reported_at (receipts_of base es) n ≡ entry_at base es n }
    ensures rises { (base : ABase) (es : List AnEntry) → ascends (receipts_of base es) ≡ true }
    ensures only { (ts : List Numbered) (base : ABase) (es : List AnEntry) → ascends ts ≡ true → ((n : ℕ) → reported_at ts n ≡ entry_at base es n) → ts ≡ receipts_of base es }
    ensures least { (ts : List Numbered) (base : ABase) (es : List AnEntry) (m n : ℕ) → IsLeastOff ts base es m → IsLeastOff ts base es n → m ≡ n }
{}
