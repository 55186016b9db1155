//! Worked rows: amounts against what types take.
ghost use Rattle.std.specs.Prelude.{◌≡◌, None, Some};
ghost use Rattle.occ_typing_rules.specs.declared.sharing.Opens.TheVariants as opens;
ghost use Rattle.occ_typing_rules.specs.declared.sharing.Share.TheVariants as share;
ghost use Rattle.occ_typing_rules.specs.Sharing.{share_of};

/// Amounts against what types take.
pub fn share_rows()
    ensures equal { share_of opens.None (Some 4) (Some 4) ≡ share.Even }
    ensures other { share_of opens.None (Some 4) (Some 8) ≡ share.Uneven }
    ensures unknown { share_of opens.None (Some 4) None ≡ share.Even }
    ensures one { share_of opens.One (Some 4) (Some 8) ≡ share.Sized 2 }
    ensures part { share_of opens.One (Some 4) (Some 6) ≡ share.Uneven }
    ensures several { share_of opens.Several (Some 4) (Some 8) ≡ share.Even }
    ensures nothing { share_of opens.One (Some 0) (Some 0) ≡ share.Even }
    ensures none { share_of opens.One (Some 0) (Some 4) ≡ share.Uneven }
{}
