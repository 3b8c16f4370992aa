// The exports, imports and formals of a subprogram, each looked up in one step.
ghost use Rattle.std.specs.Prelude.{◌≡◌, IfOk};
ghost use Rattle.spx_core.specs.declared.entity.VarId.{VarId};
ghost use Rattle.spx_core.specs.Dependency.{exports, imports};
ghost use Rattle.spx_core.specs.Formals.{is_formal, stands_in};
ghost use Rattle.spx_core.specs.Mirror.VarSets.{holds};
ghost use Rattle.spx_rules.specs.Allowed.{is_allowed};

use spx_core::{Sub, VarId, VarSet};
use std::alloc::{AllocError, Global};
use std::marker::Model;

/// A subprogram with the sets of its exports, imports and formals. Contracts see the subprogram.
#[derive(Drop)]
pub struct Tables<'a> {
    sub: &'a Sub,
    exports: VarSet,
    imports: VarSet,
    formals: VarSet,
}

impl<'a> Model for Tables<'a> {
    ghost use Rattle.std.specs.Coded.{codes};
    ghost use Rattle.spx_tree.specs.contracts.expression.Expr as written;
    ghost use Rattle.spx_core.specs.declared.subprogram.Sub.{Sub};
    ghost use Rattle.spx_core.specs.contracts.expression.CoreExpr as expression;
    ghost use Rattle.spx_core.specs.contracts.statement.CoreStmt as statement;
    ghost use Rattle.spx_rules.specs.SetsOfSub.{AreSetsOf};

    ghost Value = { Sub };

    ghost coded = { Prim.hlevel (codes, written.the_row.coded, expression.the_row.coded, statement.the_row.coded) };

    ghost view = { λ t. t.sub.now };

    ghost invariant = { λ t. AreSetsOf t.sub.now t.exports t.imports t.formals };
}

/// The variables that a precondition may name, or a postcondition.
#[derive(Clone, Copy)]
pub enum Allowed {
    Imports,
    Formals,
}

/// The set of these variables.
fn set_of(alloc: Global, vars: &[VarId]) -> Result<VarSet, AllocError>
    ensures { IfOk result (λ set. (v : VarId) → holds set v ≡ stands_in v vars.now) }
{
    let mut set = VarSet::new(alloc)?;
    for var in vars {
        set.insert(*var)?;
    }
    Ok(set)
}

impl<'a> Tables<'a> {
    pub fn new(alloc: Global, sub: &'a Sub) -> Result<Tables<'a>, AllocError>
        ensures { IfOk result (λ tables. tables ≡ sub.now) }
    {
        let exports = VarSet::exports(alloc, sub)?;
        let imports = VarSet::imports(alloc, sub)?;
        let formals = set_of(alloc, sub.formals())?;
        Ok(Tables {
            sub,
            exports,
            imports,
            formals,
        })
    }

    pub fn sub(&self) -> &Sub
        ensures { result.now ≡ self.now }
    {
        self.sub
    }

    /// Whether the variable is exported.
    pub fn exports(&self, var: VarId) -> bool
        ensures { result ≡ exports var self.now }
    {
        self.exports.contains(var)
    }

    /// Whether the variable is imported.
    pub fn imports(&self, var: VarId) -> bool
        ensures { result ≡ imports var self.now }
    {
        self.imports.contains(var)
    }

    /// Whether the variable is a formal.
    pub fn is_formal(&self, var: VarId) -> bool
        ensures { result ≡ is_formal var self.now }
    {
        self.formals.contains(var)
    }

    /// Whether the variable is one of those allowed.
    pub fn allows(&self, allowed: Allowed, var: VarId) -> bool
        ensures { result ≡ is_allowed allowed self.now var }
    {
        match allowed {
            Allowed::Imports => self.imports(var),
            Allowed::Formals => self.is_formal(var),
        }
    }
}
