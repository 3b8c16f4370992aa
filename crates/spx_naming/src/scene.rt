// What an expression stands in.
ghost use Rattle.std.specs.Prelude.{◌≡◌};
ghost use Rattle.spx_core.specs.ResolvedExpressions as resolved;

use crate::changed::Changed;
use spx_core::{CoreName, TypeRow};
use std::marker::Model;

/// What an expression stands in: the types that are declared before it, and the variables of which it may name the value on
/// entry.
#[derive(Drop)]
pub struct Scene<'a> {
    types: &'a [TypeRow],
    /// In an annotation.
    changed: Option<&'a Changed<'a>>,
    /// Whether it stands in a declaration.
    declaring: bool,
}

impl<'a> Model for Scene<'a> {
    ghost use Rattle.std.specs.Coded.{codes};
    ghost use Rattle.std.specs.Option.{option_copied};
    ghost use Rattle.spx_tree.specs.contracts.expression.Expr as written;
    ghost use Rattle.spx_core.specs.ResolvedExpressions as resolved;
    ghost use Rattle.spx_naming.specs.Ends.{items_if_any};

    ghost Value = { resolved.Scene };

    ghost coded = { Prim.hlevel (codes, written.the_row.coded) };

    ghost view = { λ s. record { types = s.types.now; items = items_if_any (option_copied s.changed); declaring = s.declaring } };
}

impl<'a> Scene<'a> {
    /// In code, where no value on entry may be named.
    pub fn in_code(types: &'a [TypeRow]) -> Scene<'a>
        ensures { result ≡ resolved.in_code types.now }
    {
        Scene {
            types,
            changed: None,
            declaring: false,
        }
    }

    /// In a declaration.
    pub fn in_declaration(types: &'a [TypeRow]) -> Scene<'a>
        ensures { result ≡ resolved.in_declaration types.now }
    {
        Scene {
            types,
            changed: None,
            declaring: true,
        }
    }

    /// In an annotation of a subprogram whose relation changes these variables.
    pub fn in_annotation(types: &'a [TypeRow], changed: &'a Changed<'a>) -> Scene<'a>
        ensures { result ≡ resolved.in_annotation types.now changed.now }
    {
        Scene {
            types,
            changed: Some(changed),
            declaring: false,
        }
    }

    /// In an annotation among the statements of this.
    pub fn annotating(&self) -> Scene<'a>
        ensures { result ≡ resolved.in_annotation self.now.types self.now.items }
    {
        Scene {
            types: self.types,
            changed: self.changed,
            declaring: false,
        }
    }

    pub fn types(&self) -> &'a [TypeRow]
        ensures { result.now ≡ self.now.types }
    {
        self.types
    }

    pub fn is_declaring(&self) -> bool
        ensures { result ≡ self.now.declaring }
    {
        self.declaring
    }

    /// Whether the name denotes a variable of which the value on entry may be named.
    pub fn has(&self, name: &CoreName) -> bool
        ensures { result ≡ resolved.is_changed_by self.now.items name.now }
    {
        match self.changed {
            Some(changed) => changed.has(name),
            None => false,
        }
    }
}
