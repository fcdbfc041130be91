// A case that has passed its first tests.
ghost use Rattle.cases.specs.Form.{WellFormed};

use cases::{Case, check_form};
use refusals::Refusal;

// A case to which refusals 3, 4 and 5 do not apply.
#[derive(Clone, Copy, Debug)]
pub(crate) struct FormedCase<'a> {
    pub(crate) case: &'a Case,
    ghost formed: { WellFormed case.now },
}

impl<'a> FormedCase<'a> {
    ghost use Rattle.std.specs.Prelude.{◌≡◌, false, IfOk, IfErr, Err};
    ghost use Rattle.refusals.specs.Tests.{first};
    ghost use Rattle.cases.specs.Form.{form_tests};

    // The case, or the first of these refusals that applies.
    #[tactic(auto, using(refusals::proofs::Order::first_none))]
    pub(crate) fn new(case: &'a Case) -> Result<FormedCase<'a>, Refusal>
        ensures passed { IfOk result (λ formed. formed.case ≡ case.entry) }
        ensures refused { IfErr result (λ refusal. first (form_tests false case.now) ≡ Err refusal) }
    {
        check_form(case, false)?;
        Ok(FormedCase { case })
    }
}
