// The values of expressions.
ghost use Rattle.std.specs.Prelude.{◌≡◌, IfOk, IfSome};
ghost use Rattle.spx_term.specs.declared.value.Value.TheVariants as value;
ghost use Rattle.spx_term.specs.Meaning.{as_number, as_truth};

use spx_meaning::{Scalar, Value, as_number, as_truth, value_of};
use std::alloc::{AllocError, Global};
use std::marker::Model;

/// Where a value is.
#[derive(Drop)]
enum Held<'a> {
    /// In a store, as a whole or as a part.
    Lent(&'a Value),
    /// Here.
    Own(Value),
}

/// The value of an expression. A store has it, or the expression makes it. Contracts see the value.
#[derive(Drop)]
pub(crate) struct Operand<'a> {
    held: Held<'a>,
}

impl<'a> Model for Operand<'a> {
    ghost use Rattle.spx_interp.specs.Operands.{operand_value};
    ghost use Rattle.spx_term.specs.declared.value.Value as values;
    ghost use Rattle.spx_term.specs.contracts.value.Value as contract;
    ghost use Rattle.std.specs.Coded.{codes};

    ghost Value = { values.Value };

    ghost coded = { Prim.hlevel (codes, contract.the_row.coded) };

    ghost view = { λ o. operand_value o.held };
}

impl<'a> Operand<'a> {
    /// A value that a store has.
    pub fn lent(value: &'a Value) -> Operand<'a>
        ensures { result ≡ value.now }
    {
        Operand {
            held: Held::Lent(value),
        }
    }

    /// A value that is made.
    pub fn own(value: Value) -> Operand<'a>
        ensures { result ≡ value }
    {
        Operand {
            held: Held::Own(value),
        }
    }

    pub fn number(number: i128) -> Operand<'a>
        ensures { result ≡ value.Number number }
    {
        Operand::own(Value::Number(number))
    }

    pub fn truth(truth: bool) -> Operand<'a>
        ensures { result ≡ value.Truth truth }
    {
        Operand::own(Value::Truth(truth))
    }

    /// A static value.
    pub fn scalar(scalar: Scalar) -> Operand<'a>
        ensures { result ≡ scalar }
    {
        Operand::own(value_of(scalar))
    }

    pub fn as_value(&self) -> &Value
        ensures { result.now ≡ self.now }
    {
        match &self.held {
            Held::Lent(value) => value,
            Held::Own(value) => value,
        }
    }

    /// The value in the store, if a store has it.
    pub fn as_lent(&self) -> Option<&'a Value>
        ensures { IfSome result (λ value. value.now ≡ self.now) }
    {
        match &self.held {
            Held::Lent(value) => Some(*value),
            Held::Own(_) => None,
        }
    }

    /// The number, or 0 of what is none.
    pub fn as_number(&self) -> i128
        ensures { result ≡ as_number self.now }
    {
        as_number(self.as_value())
    }

    /// The truth value, or false of what is none.
    pub fn as_truth(&self) -> bool
        ensures { result ≡ as_truth self.now }
    {
        as_truth(self.as_value())
    }

    /// The value itself. It is copied where a store has it.
    pub fn into_value(self, alloc: Global) -> Result<Value, AllocError>
        ensures { IfOk result (λ value. value ≡ self.entry) }
    {
        match self.held {
            Held::Lent(value) => value.copy(alloc),
            Held::Own(value) => Ok(value),
        }
    }
}
