//! The two ways in which values are compared, and the texts that each of them has.
#![tactic(auto, using(crate::proofs::PrintLaws::printing_steps))]

ghost use Rattle.std.specs.Prelude.{◌≡◌, ◌∷◌, [], OnOk};
ghost use Rattle.dm_output.specs.Output.{last_expr, no_expr, bool, arms_of};
ghost use Rattle.dm_output.specs.Tokens as tokens;
ghost use Rattle.dm_print_types.specs.Laying.{lay};
ghost use Rattle.dm_operands.specs.Bodies as bodies;
ghost use Rattle.dm_partial_eq.specs.Emitted as spec;
ghost use Rattle.dm_partial_eq.specs.Printed as printed;

use dm_layout::{Layout, Printed};
use dm_print_types::token::{fixed, joint, word};

/// Which of the two methods is printed.
#[derive(Clone, Copy, Debug, PartialEq, Eq)]
pub(crate) enum Comparing {
    Equal,
    Unequal,
}

impl Comparing {
    /// Adds the sign of a test.
    pub(crate) fn sign(self, out: &mut Layout) -> Printed
        ensures { OnOk result (out.new ≡ lay out.old (printed.sign_trees self)) }
    {
        match self {
            Comparing::Equal => joint(out, '=', '='),
            Comparing::Unequal => joint(out, '!', '='),
        }
    }

    /// Adds what joins two tests.
    pub(crate) fn join(self, out: &mut Layout) -> Printed
        ensures { OnOk result (out.new ≡ lay out.old (printed.join_trees self)) }
    {
        match self {
            Comparing::Equal => joint(out, '&', '&'),
            Comparing::Unequal => joint(out, '|', '|'),
        }
    }

    /// Adds what no test at all gives.
    pub(crate) fn neutral(self, out: &mut Layout) -> Printed
        ensures { OnOk result (out.new ≡ lay out.old (tokens.expr_trees (bool (spec.neutral_of self)))) }
    {
        match self {
            Comparing::Equal => word(out, "true"),
            Comparing::Unequal => word(out, "false"),
        }
    }

    /// Adds the arm of every other pair, which gives what no test at all gives.
    pub(crate) fn other_pairs(self, out: &mut Layout) -> Printed
        ensures { OnOk result (out.new ≡ lay out.old (tokens.arms_trees (arms_of (bodies.otherwise (bool (spec.neutral_of self)) ∷ [])))) }
    {
        match self {
            Comparing::Equal => fixed(out, "_ => true ,"),
            Comparing::Unequal => fixed(out, "_ => false ,"),
        }
    }

    /// Adds the test of the discriminants.
    pub(crate) fn discriminants(self, out: &mut Layout) -> Printed
        ensures { OnOk result (out.new ≡ lay out.old (tokens.expr_trees (spec.discriminants self))) }
    {
        match self {
            Comparing::Equal => fixed(
                out,
                "derive_more :: core :: mem :: discriminant (self) == derive_more :: core :: mem :: discriminant (__other)",
            ),
            Comparing::Unequal => fixed(
                out,
                "derive_more :: core :: mem :: discriminant (self) != derive_more :: core :: mem :: discriminant (__other)",
            ),
        }
    }

    /// Adds what stands in front of the method's body.
    pub(crate) fn method_head(self, out: &mut Layout) -> Printed
        ensures { OnOk result (out.new ≡ lay out.old (tokens.signature_trees (spec.method_with self (last_expr no_expr)))) }
    {
        match self {
            Comparing::Equal => fixed(out, "# [inline] fn eq (& self , __other : & Self) -> bool"),
            Comparing::Unequal => fixed(
                out,
                "# [inline] fn ne (& self , __other : & Self) -> bool",
            ),
        }
    }
}
