// A case beside the rules of its kind.
ghost use Rattle.std.specs.Prelude.{◌≡◌};
ghost use Rattle.cases.specs.Kinds.{rules_of};

use crate::{Case, Rules};

/// A case beside the rules of its kind, which are those of no kind where the kind is not listed.
#[derive(Clone, Copy, Debug)]
pub struct RuledCase<'a> {
    pub case: &'a Case,
    pub rules: Rules,
    ghost ruled: { rules ≡ rules_of case.now.kind },
}

impl<'a> RuledCase<'a> {
    /// The case beside the rules of its kind.
    pub fn new(case: &'a Case) -> RuledCase<'a>
        ensures { result.case ≡ case.entry }
    {
        RuledCase {
            case,
            rules: crate::rules_of(case.kind),
        }
    }
}
