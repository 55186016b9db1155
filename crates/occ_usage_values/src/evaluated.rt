//! A call that is evaluated at a line. What it uses is made only when it is asked for. Made with the call, it would be gathered
//! again for each call round it, since calls are nested in actuals.
ghost use Rattle.std.specs.Prelude.{◌≡◌, false, IfOk, IsFalse};
ghost use Rattle.std.specs.List.{list_any};
ghost use Rattle.occ_usage_values.specs.Uses.{is_write as spec_is_write};
ghost use Rattle.occ_usage_values.specs.Views.{actual_views, call_at};
ghost use Rattle.occ_usage_values.specs.declared.uses.Use.{Use as AUse};

use super::bound::{Bound, body_at};
use super::uses::{Use, is_write};
use super::using::{actuals_uses, called_uses, places};
use occ_base::Items;
use occ_project::Location;
use occ_typing_rules::TypedActual;
use occ_usage_parts::SelectedPart;
use std::alloc::{AllocError, Global};
use std::marker::Model;

/// A call: in contracts what its actuals are, and what it uses.
#[derive(Drop)]
pub struct Call<'a> {
    callee: usize,
    actuals: &'a [TypedActual],
    env: &'a [Bound],
    line: &'a Location,
}

impl<'a> Model for Call<'a> {
    ghost use Rattle.occ_usage_values.specs.Calls.{Call};
    ghost use Rattle.occ_usage_values.specs.Views.{actual_views, call_at};

    ghost Value = { Call };

    ghost view = { λ call. call_at call.callee (actual_views call.actuals.now) call.env.now call.line.now };
}

impl<'a> Call<'a> {
    /// A call of the specification with this number.
    pub(crate) fn new(
        callee: usize,
        actuals: &'a [TypedActual],
        env: &'a [Bound],
        line: &'a Location,
    ) -> Call<'a>
        ensures { result ≡ call_at callee (actual_views actuals.now) env.now line.now }
    {
        Call {
            callee,
            actuals,
            env,
            line,
        }
    }

    /// The number of the specification that is called.
    pub fn callee(&self) -> usize
        ensures { result ≡ self.now.callee }
    {
        self.callee
    }

    /// What each actual is: nothing that is used, where its formal is VAL, or where it is a timer.
    pub fn places(&self, alloc: Global) -> Result<Items<Option<SelectedPart>>, AllocError>
        ensures { IfOk result (λ places. places ≡ self.now.places) }
    {
        places(alloc, self.actuals, self.env)
    }

    /// What the values and the subscripts of its actuals use.
    pub fn reads(&self, alloc: Global) -> Result<Items<Use>, AllocError>
        ensures { IfOk result (λ reads. reads ≡ self.now.reads) }
    {
        let mut reads = Items::new(alloc);
        actuals_uses(alloc, self.actuals, self.env, self.line, &mut reads)?;
        Ok(reads)
    }

    /// What its body uses.
    pub fn uses(&self, alloc: Global) -> Result<Items<Use>, AllocError>
        ensures { IfOk result (λ uses. uses ≡ self.now.uses) }
    {
        let mut uses = Items::new(alloc);
        called_uses(
            alloc,
            self.callee,
            self.actuals,
            self.env,
            self.line,
            &mut uses,
        )?;
        Ok(uses)
    }

    /// Whether its body writes something; else the call writes nothing.
    #[tactic(auto, using(crate::proofs::Writing::writes_none))]
    pub fn writes(&self) -> bool
        ensures { IsFalse result → list_any (λ (found : AUse). spec_is_write found.kind) self.now.uses ≡ false }
    {
        has_write(body_at(self.env, self.callee))
    }
}

/// Whether one of these is a write.
fn has_write(uses: &[Use]) -> bool
    ensures { result ≡ list_any (λ (found : AUse). spec_is_write found.kind) uses.now }
{
    uses.iter().any(|found| is_write(found.kind))
}
