// From tokens to declarations (Ada 95 RM 3).
ghost use Rattle.std.specs.Prelude.{◌≡◌};
ghost use Rattle.spx_tree.specs.Written.{program};
ghost use Rattle.spx_tree.specs.declared.token.Kind.TheVariants as k;
ghost use Rattle.spx_cursor.specs.Reading as reading;
ghost use Rattle.spx_parse_body.specs.Expressions as expressions;
ghost use Rattle.spx_parse_body.specs.Statements as body;
ghost use Rattle.spx_parse_unit.specs.Units as read;
ghost use Rattle.spx_cursor.specs.Answers.{Reads};

use crate::annotations::identifiers;
use spx_cursor::{Cursor, PROGRAM, Stop};
use spx_parse_body::{constraint, expression, name};
use spx_tree::{Decl, Expr, FieldDecl, Identifier, Kind, Name, Range, TypeDef};
use sqlite_items::{Boxed, Items};
use std::alloc::Global;

/// Reads the identifier that is declared.
fn subject(alloc: Global, cursor: &mut Cursor<'_>) -> Result<Boxed<Identifier>, Stop>
    ensures { Reads (reading.identifier program cursor.old) result cursor.new }
{
    Ok(Boxed::new(alloc, cursor.identifier(alloc, PROGRAM)?)?)
}

/// Reads the name of a type.
fn type_name(alloc: Global, cursor: &mut Cursor<'_>, levels: u32) -> Result<Boxed<Name>, Stop>
    ensures { Reads (expressions.name program levels cursor.old) result cursor.new }
{
    Ok(Boxed::new(alloc, name(alloc, cursor, levels, PROGRAM)?)?)
}

/// Reads the value of an object.
fn value(alloc: Global, cursor: &mut Cursor<'_>, levels: u32) -> Result<Boxed<Expr>, Stop>
    ensures { Reads (expressions.expression program levels cursor.old) result cursor.new }
{
    Ok(Boxed::new(alloc, expression(alloc, cursor, levels, PROGRAM)?)?)
}

// [constraint]
#[tactic(auto, unfolding(spx_cursor::specs::Reading::if_seen))]
fn optional_constraint(
    alloc: Global,
    cursor: &mut Cursor<'_>,
    levels: u32,
) -> Result<Option<Boxed<Range>>, Stop>
    ensures { Reads (reading.if_seen program k.Range (body.constraint levels) cursor.old) result cursor.new }
{
    if cursor.sees(PROGRAM, Kind::Range) {
        return Ok(Some(Boxed::new(alloc, constraint(alloc, cursor, levels)?)?));
    }
    Ok(None)
}

// [name]
#[tactic(auto, unfolding(spx_cursor::specs::Reading::if_seen))]
fn optional_name(
    alloc: Global,
    cursor: &mut Cursor<'_>,
    levels: u32,
) -> Result<Option<Boxed<Name>>, Stop>
    ensures { Reads (reading.if_seen program k.Identifier (expressions.name program levels) cursor.old) result cursor.new }
{
    if cursor.sees(PROGRAM, Kind::Identifier) {
        return Ok(Some(type_name(alloc, cursor, levels)?));
    }
    Ok(None)
}

// integer = constraint
#[tactic(auto, unfolding(crate::specs::Units::integer))]
fn integer(alloc: Global, cursor: &mut Cursor<'_>, levels: u32) -> Result<Boxed<TypeDef>, Stop>
    ensures { Reads (read.integer levels cursor.old) result cursor.new }
{
    let range = constraint(alloc, cursor, levels)?;
    Ok(Boxed::new(alloc, TypeDef::Integer(range))?)
}

// enumeration = "(" identifiers ")"
#[tactic(auto, unfolding(crate::specs::Units::enumeration))]
fn enumeration(alloc: Global, cursor: &mut Cursor<'_>) -> Result<Boxed<TypeDef>, Stop>
    ensures { Reads (read.enumeration cursor.old) result cursor.new }
{
    let place = cursor.expect_place(PROGRAM, Kind::LeftParenthesis)?;
    let literals = identifiers(alloc, cursor, PROGRAM)?;
    cursor.expect(PROGRAM, Kind::RightParenthesis)?;
    Ok(Boxed::new(alloc, TypeDef::Enumeration(place, literals))?)
}

// array = "array" "(" name ")" "of" name
#[tactic(auto, unfolding(crate::specs::Units::array))]
fn array(alloc: Global, cursor: &mut Cursor<'_>, levels: u32) -> Result<Boxed<TypeDef>, Stop>
    ensures { Reads (read.array levels cursor.old) result cursor.new }
{
    cursor.expect(PROGRAM, Kind::Array)?;
    let place = cursor.expect_place(PROGRAM, Kind::LeftParenthesis)?;
    let index = name(alloc, cursor, levels, PROGRAM)?;
    cursor.expect(PROGRAM, Kind::RightParenthesis)?;
    cursor.expect(PROGRAM, Kind::Of)?;
    let element = name(alloc, cursor, levels, PROGRAM)?;
    Ok(Boxed::new(alloc, TypeDef::Array(place, index, element))?)
}

// field = identifiers ":" name ";"
#[tactic(auto, unfolding(crate::specs::Units::field))]
fn field(alloc: Global, cursor: &mut Cursor<'_>, levels: u32) -> Result<FieldDecl, Stop>
    ensures { Reads (read.field levels cursor.old) result cursor.new }
{
    let names = identifiers(alloc, cursor, PROGRAM)?;
    cursor.expect(PROGRAM, Kind::Colon)?;
    let type_name = name(alloc, cursor, levels, PROGRAM)?;
    cursor.expect(PROGRAM, Kind::Semicolon)?;
    Ok(FieldDecl { names, type_name })
}

// fields = field {field}
#[tactic(auto, using(crate::proofs::Turns::more_fields_is), unfolding(crate::specs::Units::fields))]
fn fields(alloc: Global, cursor: &mut Cursor<'_>, levels: u32) -> Result<Items<FieldDecl>, Stop>
    ensures { Reads (read.fields levels cursor.old) result cursor.new }
{
    let mut fields = Items::new(alloc);
    fields.push(field(alloc, cursor, levels)?)?;
    'more: while cursor.sees(PROGRAM, Kind::Identifier) {
        fields.push(field(alloc, cursor, levels)?)?;
    }
    Ok(fields)
}

// record_definition = "record" fields "end" "record"
#[tactic(auto, unfolding(crate::specs::Units::record_definition))]
fn record_definition(
    alloc: Global,
    cursor: &mut Cursor<'_>,
    levels: u32,
) -> Result<Boxed<TypeDef>, Stop>
    ensures { Reads (read.record_definition levels cursor.old) result cursor.new }
{
    cursor.expect(PROGRAM, Kind::Record)?;
    let fields = fields(alloc, cursor, levels)?;
    let end = cursor.expect_place(PROGRAM, Kind::End)?;
    cursor.expect(PROGRAM, Kind::Record)?;
    Ok(Boxed::new(alloc, TypeDef::Record(fields, end))?)
}

// definition = integer | enumeration | array | record_definition
#[tactic(auto, unfolding(crate::specs::Units::definition))]
fn definition(alloc: Global, cursor: &mut Cursor<'_>, levels: u32) -> Result<Boxed<TypeDef>, Stop>
    ensures { Reads (read.definition levels cursor.old) result cursor.new }
{
    match cursor.peek(PROGRAM) {
        Some(Kind::Range) => integer(alloc, cursor, levels),
        Some(Kind::LeftParenthesis) => enumeration(alloc, cursor),
        Some(Kind::Array) => array(alloc, cursor, levels),
        Some(Kind::Record) => record_definition(alloc, cursor, levels),
        _ => Err(cursor.expected()),
    }
}

// full_type = "type" identifier "is" definition ";"
#[tactic(auto, unfolding(crate::specs::Units::full_type))]
fn full_type(alloc: Global, cursor: &mut Cursor<'_>, levels: u32) -> Result<Decl, Stop>
    ensures { Reads (read.full_type levels cursor.old) result cursor.new }
{
    cursor.expect(PROGRAM, Kind::Type)?;
    let name = subject(alloc, cursor)?;
    cursor.expect(PROGRAM, Kind::Is)?;
    let definition = definition(alloc, cursor, levels)?;
    cursor.expect(PROGRAM, Kind::Semicolon)?;
    Ok(Decl::FullType(name, definition))
}

// subtype = "subtype" identifier "is" name [constraint] ";"
#[tactic(auto, unfolding(crate::specs::Units::subtype))]
fn subtype(alloc: Global, cursor: &mut Cursor<'_>, levels: u32) -> Result<Decl, Stop>
    ensures { Reads (read.subtype levels cursor.old) result cursor.new }
{
    cursor.expect(PROGRAM, Kind::Subtype)?;
    let name = subject(alloc, cursor)?;
    cursor.expect(PROGRAM, Kind::Is)?;
    let parent = type_name(alloc, cursor, levels)?;
    let range = optional_constraint(alloc, cursor, levels)?;
    cursor.expect(PROGRAM, Kind::Semicolon)?;
    Ok(Decl::Subtype(name, parent, range))
}

// initial = ":=" expression
#[tactic(auto, unfolding(crate::specs::Units::initial))]
fn initial(alloc: Global, cursor: &mut Cursor<'_>, levels: u32) -> Result<Boxed<Expr>, Stop>
    ensures { Reads (read.initial levels cursor.old) result cursor.new }
{
    cursor.expect(PROGRAM, Kind::Assignment)?;
    value(alloc, cursor, levels)
}

// [initial]
#[tactic(auto, unfolding(spx_cursor::specs::Reading::if_seen))]
fn optional_initial(
    alloc: Global,
    cursor: &mut Cursor<'_>,
    levels: u32,
) -> Result<Option<Boxed<Expr>>, Stop>
    ensures { Reads (reading.if_seen program k.Assignment (read.initial levels) cursor.old) result cursor.new }
{
    if cursor.sees(PROGRAM, Kind::Assignment) {
        return Ok(Some(initial(alloc, cursor, levels)?));
    }
    Ok(None)
}

// variables = name [initial] ";"
#[tactic(auto, unfolding(crate::specs::Units::variables))]
fn variables(
    alloc: Global,
    cursor: &mut Cursor<'_>,
    levels: u32,
    names: Boxed<Items<Identifier>>,
) -> Result<Decl, Stop>
    ensures { Reads (read.variables levels names cursor.old) result cursor.new }
{
    let type_name = type_name(alloc, cursor, levels)?;
    let value = optional_initial(alloc, cursor, levels)?;
    cursor.expect(PROGRAM, Kind::Semicolon)?;
    Ok(Decl::Variables(names, type_name, value))
}

// constants = "constant" [name] ":=" expression ";"
#[tactic(auto, unfolding(crate::specs::Units::constants))]
fn constants(
    alloc: Global,
    cursor: &mut Cursor<'_>,
    levels: u32,
    names: Boxed<Items<Identifier>>,
) -> Result<Decl, Stop>
    ensures { Reads (read.constants levels names cursor.old) result cursor.new }
{
    cursor.expect(PROGRAM, Kind::Constant)?;
    let type_name = optional_name(alloc, cursor, levels)?;
    cursor.expect(PROGRAM, Kind::Assignment)?;
    let value = value(alloc, cursor, levels)?;
    cursor.expect(PROGRAM, Kind::Semicolon)?;
    Ok(Decl::Constants(names, type_name, value))
}

// variables | constants
#[tactic(auto, unfolding(crate::specs::Units::objects_after))]
fn objects_after(
    alloc: Global,
    cursor: &mut Cursor<'_>,
    levels: u32,
    names: Boxed<Items<Identifier>>,
) -> Result<Decl, Stop>
    ensures { Reads (read.objects_after levels names cursor.old) result cursor.new }
{
    match cursor.peek(PROGRAM) {
        Some(Kind::Identifier) => variables(alloc, cursor, levels, names),
        Some(Kind::Constant) => constants(alloc, cursor, levels, names),
        _ => Err(cursor.expected()),
    }
}

// objects = identifiers ":" (variables | constants)
#[tactic(auto, unfolding(crate::specs::Units::objects))]
fn objects(alloc: Global, cursor: &mut Cursor<'_>, levels: u32) -> Result<Decl, Stop>
    ensures { Reads (read.objects levels cursor.old) result cursor.new }
{
    let names = Boxed::new(alloc, identifiers(alloc, cursor, PROGRAM)?)?;
    cursor.expect(PROGRAM, Kind::Colon)?;
    objects_after(alloc, cursor, levels, names)
}

// declaration = objects | full_type | subtype
#[tactic(auto, unfolding(crate::specs::Units::declaration))]
fn declaration(alloc: Global, cursor: &mut Cursor<'_>, levels: u32) -> Result<Decl, Stop>
    ensures { Reads (read.declaration levels cursor.old) result cursor.new }
{
    match cursor.peek(PROGRAM) {
        Some(Kind::Identifier) => objects(alloc, cursor, levels),
        Some(Kind::Type) => full_type(alloc, cursor, levels),
        Some(Kind::Subtype) => subtype(alloc, cursor, levels),
        _ => Err(cursor.expected()),
    }
}

/// Whether a declaration comes next.
fn sees_declaration(cursor: &Cursor<'_>) -> bool
    ensures { result ≡ read.sees_declaration cursor.now }
{
    match cursor.peek(PROGRAM) {
        Some(Kind::Identifier | Kind::Type | Kind::Subtype) => true,
        _ => false,
    }
}

/// Reads declarations, as many as there are.
#[tactic(auto, using(crate::proofs::Turns::more_declarations_is), unfolding(crate::specs::Units::declarations))]
pub fn declarations(
    alloc: Global,
    cursor: &mut Cursor<'_>,
    levels: u32,
) -> Result<Items<Decl>, Stop>
    ensures { Reads (read.declarations levels cursor.old) result cursor.new }
{
    let mut declarations = Items::new(alloc);
    'more: while sees_declaration(cursor) {
        declarations.push(declaration(alloc, cursor, levels)?)?;
    }
    Ok(declarations)
}
