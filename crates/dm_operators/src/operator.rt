//! The traits of `core::ops`, as a table.

ghost use Rattle.std.specs.Prelude.{◌≡◌, map, option_map};
ghost use Rattle.dm_operators.specs.Operators as spec;
ghost use Rattle.dm_operators.specs.Table.{operator_view};

/// What stands right of self.
#[derive(Clone, Copy, Debug, PartialEq, Eq)]
pub enum Form {
    /// A value of the same type.
    Structural,
    /// Any value.
    Scalar,
    /// Nothing.
    Unary,
}

/// A trait of `core::ops`.
#[derive(Clone, Copy)]
pub struct Operator {
    /// The trait's name, as `Add`.
    pub trait_name: &'static str,
    /// Its only method, which also names its attribute, as `add`.
    pub method: &'static str,
    pub form: Form,
    /// Whether the method changes self in its place.
    pub assigning: bool,
}

/// An operator, and what stands right of self in its implementation.
#[derive(Clone, Copy)]
pub struct Implemented {
    pub form: Form,
    pub operator: Operator,
}

/// The twenty-two of them, those alike side by side.
pub const OPERATORS: [Operator; 22] = [
    Operator {
        trait_name: "Add",
        method: "add",
        form: Form::Structural,
        assigning: false,
    },
    Operator {
        trait_name: "BitAnd",
        method: "bitand",
        form: Form::Structural,
        assigning: false,
    },
    Operator {
        trait_name: "BitOr",
        method: "bitor",
        form: Form::Structural,
        assigning: false,
    },
    Operator {
        trait_name: "BitXor",
        method: "bitxor",
        form: Form::Structural,
        assigning: false,
    },
    Operator {
        trait_name: "Sub",
        method: "sub",
        form: Form::Structural,
        assigning: false,
    },
    Operator {
        trait_name: "AddAssign",
        method: "add_assign",
        form: Form::Structural,
        assigning: true,
    },
    Operator {
        trait_name: "BitAndAssign",
        method: "bitand_assign",
        form: Form::Structural,
        assigning: true,
    },
    Operator {
        trait_name: "BitOrAssign",
        method: "bitor_assign",
        form: Form::Structural,
        assigning: true,
    },
    Operator {
        trait_name: "BitXorAssign",
        method: "bitxor_assign",
        form: Form::Structural,
        assigning: true,
    },
    Operator {
        trait_name: "SubAssign",
        method: "sub_assign",
        form: Form::Structural,
        assigning: true,
    },
    Operator {
        trait_name: "Div",
        method: "div",
        form: Form::Scalar,
        assigning: false,
    },
    Operator {
        trait_name: "Mul",
        method: "mul",
        form: Form::Scalar,
        assigning: false,
    },
    Operator {
        trait_name: "Rem",
        method: "rem",
        form: Form::Scalar,
        assigning: false,
    },
    Operator {
        trait_name: "Shl",
        method: "shl",
        form: Form::Scalar,
        assigning: false,
    },
    Operator {
        trait_name: "Shr",
        method: "shr",
        form: Form::Scalar,
        assigning: false,
    },
    Operator {
        trait_name: "DivAssign",
        method: "div_assign",
        form: Form::Scalar,
        assigning: true,
    },
    Operator {
        trait_name: "MulAssign",
        method: "mul_assign",
        form: Form::Scalar,
        assigning: true,
    },
    Operator {
        trait_name: "RemAssign",
        method: "rem_assign",
        form: Form::Scalar,
        assigning: true,
    },
    Operator {
        trait_name: "ShlAssign",
        method: "shl_assign",
        form: Form::Scalar,
        assigning: true,
    },
    Operator {
        trait_name: "ShrAssign",
        method: "shr_assign",
        form: Form::Scalar,
        assigning: true,
    },
    Operator {
        trait_name: "Not",
        method: "not",
        form: Form::Unary,
        assigning: false,
    },
    Operator {
        trait_name: "Neg",
        method: "neg",
        form: Form::Unary,
        assigning: false,
    },
];

fn named_in(all: &[Operator], name: &str) -> Option<Operator>
    ensures { option_map operator_view result ≡ spec.named_in (map operator_view all.now) name.now }
{
    for operator in all {
        if name == operator.trait_name {
            return Some(*operator);
        }
    }
    None
}

/// The operator whose trait has this name.
pub fn operator_named(name: &str) -> Option<Operator>
    ensures { option_map operator_view result ≡ spec.operator_named name.now }
{
    named_in(&OPERATORS, name)
}
