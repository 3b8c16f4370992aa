// Values of integers and truth values.
ghost use Rattle.std.specs.Prelude.{◌≡◌};
ghost use Rattle.spx_term.specs.declared.value.Value.TheVariants as value;
ghost use Rattle.spx_term.specs.Values.{value_in};
ghost use Rattle.spx_term.specs.Meaning.{as_number, as_truth, same_value};

use crate::Literal;
use std::marker::Model;

/// A number or a truth value. Contracts see a `Value`.
#[derive(Clone, Copy, Debug, PartialEq, Eq)]
pub struct Scalar {
    literal: Literal,
}

impl Model for Scalar {
    ghost use Rattle.spx_term.specs.declared.value.Value as values;
    ghost use Rattle.spx_term.specs.contracts.value.Value as contract;
    ghost use Rattle.std.specs.Coded.{codes};

    ghost Value = { values.Value };

    ghost coded = { Prim.hlevel (codes, contract.the_row.coded) };

    ghost use Rattle.spx_term.specs.Values.{value_in, literal_in, literal_back};

    ghost view = { λ s. value_in s.literal };

    ghost inverse = { λ x. record { literal = literal_in x } };

    ghost inverse_ok = { λ s h. λ i. record { literal = literal_back s.literal i } };
}

impl Scalar {
    pub fn number(number: i128) -> Scalar
        ensures { result ≡ value.Number number }
    {
        Scalar {
            literal: Literal::Number(number),
        }
    }

    pub fn truth(truth: bool) -> Scalar
        ensures { result ≡ value.Truth truth }
    {
        Scalar {
            literal: Literal::Truth(truth),
        }
    }

    /// The literal of this value.
    pub fn literal(self) -> Literal
        ensures { self ≡ value_in result }
    {
        self.literal
    }

    /// The number, or 0 of a truth value.
    pub fn as_number(self) -> i128
        ensures { result ≡ as_number self }
    {
        match self.literal {
            Literal::Number(number) => number,
            Literal::Truth(_) => 0,
        }
    }

    /// The truth value, or false of a number.
    pub fn as_truth(self) -> bool
        ensures { result ≡ as_truth self }
    {
        match self.literal {
            Literal::Number(_) => false,
            Literal::Truth(truth) => truth,
        }
    }

    /// Whether two values are equal.
    pub fn is_same(self, other: Scalar) -> bool
        ensures { result ≡ same_value self other }
    {
        match (self.literal, other.literal) {
            (Literal::Number(m), Literal::Number(n)) => m == n,
            (Literal::Number(_), Literal::Truth(_)) => false,
            (Literal::Truth(_), Literal::Number(_)) => false,
            (Literal::Truth(a), Literal::Truth(b)) => a == b,
        }
    }
}
