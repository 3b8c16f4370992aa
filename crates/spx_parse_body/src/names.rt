// Names as they are read, step by step (Ada 95 RM 4.1).
ghost use Rattle.std.specs.Prelude.{◌≡◌, ◌<◌, ◌^◌, ◌-◌, IfOk};
ghost use Rattle.spx_parse_body.specs.Expressions as read;

use crate::tall::Tall;
use spx_tree::{Arguments, Expr, Identifier, Kind, Name, NameStep, Path};
use sqlite_items::Items;
use std::alloc::{AllocError, Global};

/// The expressions between the parentheses after a name, the formals that they are given for, where these are named, and
/// the levels that the expressions take with their parentheses.
#[derive(Drop)]
pub struct Parts {
    pub names: Items<Identifier>,
    pub exprs: Items<Expr>,
    pub height: u32,
}

/// A name, the expressions of its steps, and the levels that these take with their parentheses.
#[derive(Drop)]
pub struct TallName {
    pub path: Path,
    pub parts: Items<Expr>,
    pub height: u32,
}

/// What goes on with a name, by its first token.
#[derive(Clone, Copy)]
pub enum StepKind {
    /// `.`
    Selection,
    /// `'`
    Quotation,
    /// `(`
    Application,
    /// `~`
    Entry,
}

/// What goes on with a name.
pub(crate) fn step_of(kind: Option<Kind>) -> Option<StepKind>
    ensures { result ≡ read.step_of kind }
{
    match kind {
        Some(Kind::Dot) => Some(StepKind::Selection),
        Some(Kind::Apostrophe) => Some(StepKind::Quotation),
        Some(Kind::LeftParenthesis) => Some(StepKind::Application),
        Some(Kind::Tilde) => Some(StepKind::Entry),
        _ => None,
    }
}

/// No expressions.
pub(crate) fn no_parts(alloc: Global) -> Parts
    ensures { result ≡ read.no_parts }
{
    Parts {
        names: Items::new(alloc),
        exprs: Items::new(alloc),
        height: 0,
    }
}

/// One expression more.
pub(crate) fn with_part(parts: Parts, part: Tall) -> Result<Parts, AllocError>
    requires { part.height < 2 ^ 32 - 1 }
    ensures { IfOk result (λ r. r ≡ read.with_part parts part) }
{
    let height = parts.height.max(part.height + 1);
    let names = parts.names;
    let mut exprs = parts.exprs;
    exprs.push(part.expr.into_inner())?;
    Ok(Parts {
        names,
        exprs,
        height,
    })
}

/// Arguments of one expression, and this.
pub(crate) fn one_part(alloc: Global, part: Tall) -> Result<(Arguments, Parts), AllocError>
    requires { part.height < 2 ^ 32 - 1 }
    ensures { IfOk result (λ r. r ≡ read.one_part part) }
{
    let parts = with_part(no_parts(alloc), part)?;
    Ok((Arguments::Positional(1), parts))
}

/// One expression more, which is given for a formal.
pub(crate) fn with_named(parts: Parts, name: Identifier, part: Tall) -> Result<Parts, AllocError>
    requires { part.height < 2 ^ 32 - 1 }
    ensures { IfOk result (λ r. r ≡ read.with_named parts (name, part)) }
{
    let height = parts.height.max(part.height + 1);
    let mut names = parts.names;
    let mut exprs = parts.exprs;
    names.push(name)?;
    exprs.push(part.expr.into_inner())?;
    Ok(Parts {
        names,
        exprs,
        height,
    })
}

/// Arguments that are named, and their expressions.
pub(crate) fn all_named(alloc: Global, parts: Parts) -> (Arguments, Parts)
    ensures { result ≡ read.all_named parts }
{
    let rest = Parts {
        names: Items::new(alloc),
        exprs: parts.exprs,
        height: parts.height,
    };
    (Arguments::Named(parts.names), rest)
}

/// An identifier.
pub(crate) fn root_name(alloc: Global, root: Identifier) -> TallName
    ensures { result ≡ read.root_name root }
{
    let steps = Items::new(alloc);
    TallName {
        path: Path { root, steps },
        parts: Items::new(alloc),
        height: 0,
    }
}

/// A name with one step more, and the expressions of this.
pub(crate) fn with_step(
    name: TallName,
    step: NameStep,
    exprs: Items<Expr>,
    height: u32,
) -> Result<TallName, AllocError>
    ensures { IfOk result (λ r. r ≡ read.with_step step exprs height name) }
{
    let height = name.height.max(height);
    let root = name.path.root;
    let mut steps = name.path.steps;
    let mut parts = name.parts;
    steps.push(step)?;
    parts.append(exprs)?;
    Ok(TallName {
        path: Path { root, steps },
        parts,
        height,
    })
}

/// The identifier that a name is.
fn root_alone(alloc: Global, path: &Path) -> Result<Option<Identifier>, AllocError>
    ensures { IfOk result (λ r. r ≡ read.root_alone path.now.root path.now.steps) }
{
    if path.steps.is_empty() {
        return Ok(Some(path.root.copy(alloc)?));
    }
    Ok(None)
}

/// The name that an expression is.
pub(crate) fn plain_name(expr: Expr) -> Option<Name>
    ensures { result ≡ read.plain_name expr }
{
    match expr {
        Expr::Name(path, parts) => Some(Name { path, parts }),
        Expr::Number(_, _) => None,
        Expr::Parenthesized(_, _) => None,
        Expr::Prefix(_, _, _) => None,
        Expr::Infix(_, _, _, _) => None,
        Expr::InType(_, _, _, _, _) => None,
        Expr::InRange(_, _, _, _, _) => None,
    }
}

/// The identifier that an expression is.
pub(crate) fn identifier_in(alloc: Global, expr: &Expr) -> Result<Option<Identifier>, AllocError>
    ensures { IfOk result (λ r. r ≡ read.identifier_in expr.now) }
{
    match expr {
        Expr::Name(path, _) => root_alone(alloc, path),
        Expr::Number(_, _) => Ok(None),
        Expr::Parenthesized(_, _) => Ok(None),
        Expr::Prefix(_, _, _) => Ok(None),
        Expr::Infix(_, _, _, _) => Ok(None),
        Expr::InType(_, _, _, _, _) => Ok(None),
        Expr::InRange(_, _, _, _, _) => Ok(None),
    }
}
