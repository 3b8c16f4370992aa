// The names of the values of variables.
ghost use Rattle.std.specs.Prelude.{◌≡◌};
ghost use Rattle.spx_formula.specs.Terms.{entry, first_name, last_name, now, sort_of_class, sort_of_var};

use spx_core::{Class, Program, TypeId, VarId};
use spx_meaning::type_of;
use spx_term::{Name, Sort, Symbol};

/// The sort of the values of a class.
fn sort_of_class(class: Class, id: TypeId) -> Sort
    ensures { result ≡ sort_of_class class id.0 }
{
    match class {
        Class::Integer | Class::Enumeration => Sort::Integer,
        Class::Boolean => Sort::Boolean,
        Class::Composite => Sort::Composite(id.0),
    }
}

/// The sort of the values of a variable.
fn sort_of_var(program: &Program, var: VarId) -> Sort
    ensures { result ≡ sort_of_var program.now var }
{
    let base = type_of(program, var).base;
    sort_of_class(base.class, base.id)
}

/// The present value of a variable.
pub fn now(program: &Program, var: VarId) -> Name
    ensures { result ≡ now program.now var }
{
    Name {
        symbol: Symbol::Now(var.0),
        sort: sort_of_var(program, var),
    }
}

/// The value of a variable on entry.
pub fn entry(program: &Program, var: VarId) -> Name
    ensures { result ≡ entry program.now var }
{
    Name {
        symbol: Symbol::Entry(var.0),
        sort: sort_of_var(program, var),
    }
}

/// The value of the lower bound of the loop over this parameter.
pub fn first_name(parameter: VarId) -> Name
    ensures { result ≡ first_name parameter }
{
    Name {
        symbol: Symbol::First(parameter.0),
        sort: Sort::Integer,
    }
}

/// The value of its upper bound.
pub fn last_name(parameter: VarId) -> Name
    ensures { result ≡ last_name parameter }
{
    Name {
        symbol: Symbol::Last(parameter.0),
        sort: Sort::Integer,
    }
}
