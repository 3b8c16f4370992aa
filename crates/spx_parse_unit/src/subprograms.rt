// From tokens to subprograms and units (Ada 95 RM 6 and 10.1).
ghost use Rattle.std.specs.Prelude.{◌≡◌};
ghost use Rattle.spx_tree.specs.Written.{program};
ghost use Rattle.spx_tree.specs.declared.token.Kind.TheVariants as k;
ghost use Rattle.spx_cursor.specs.Reading as reading;
ghost use Rattle.spx_parse_unit.specs.Units as read;
ghost use Rattle.spx_cursor.specs.Answers.{Reads};

use crate::annotations::{identifiers, optional_derives, optional_predicate};
use crate::declarative::declarations;
use spx_cursor::{Cursor, PROGRAM, Stop};
use spx_parse_body::{name, stmts};
use spx_text::Place;
use spx_tree::{
    Decl, Derives, FormalPart, Identifier, Kind, Param, Predicate, Stmt, Subprogram, Unit,
    WrittenMode,
};
use sqlite_items::{Boxed, Items};
use std::alloc::Global;

/// What comes before the word `is` of a subprogram.
#[derive(Drop)]
pub struct HeadingParts {
    pub place: Place,
    pub name: Identifier,
    pub formal_part: Option<FormalPart>,
    pub derives: Option<Derives>,
    pub pre: Option<Predicate>,
    pub post: Option<Predicate>,
}

/// A subprogram from the word `is` on.
#[derive(Drop)]
pub struct BodyParts {
    pub declarations: Items<Decl>,
    pub statements: Items<Stmt>,
    /// The place of the word `end`.
    pub end: Place,
    pub end_name: Option<Identifier>,
}

#[tactic(auto, unfolding(crate::specs::Units::following_in))]
fn following_in(cursor: &mut Cursor<'_>, place: Place) -> Result<WrittenMode, Stop>
    ensures { Reads (read.following_in place cursor.old) result cursor.new }
{
    match cursor.peek(PROGRAM) {
        Some(Kind::Out) => {
            cursor.expect(PROGRAM, Kind::Out)?;
            Ok(WrittenMode::InOut(place))
        }
        _ => Ok(WrittenMode::In(place)),
    }
}

// mode = ["in"] ["out"]
#[tactic(auto, unfolding(crate::specs::Units::mode))]
fn mode(cursor: &mut Cursor<'_>) -> Result<WrittenMode, Stop>
    ensures { Reads (read.mode cursor.old) result cursor.new }
{
    match cursor.peek(PROGRAM) {
        Some(Kind::In) => {
            let place = cursor.expect_place(PROGRAM, Kind::In)?;
            following_in(cursor, place)
        }
        Some(Kind::Out) => {
            cursor.expect(PROGRAM, Kind::Out)?;
            Ok(WrittenMode::Out)
        }
        _ => Ok(WrittenMode::Unwritten),
    }
}

// param = identifiers ":" mode name
#[tactic(auto, unfolding(crate::specs::Units::param))]
fn param(alloc: Global, cursor: &mut Cursor<'_>, levels: u32) -> Result<Param, Stop>
    ensures { Reads (read.param levels cursor.old) result cursor.new }
{
    let names = identifiers(alloc, cursor, PROGRAM)?;
    cursor.expect(PROGRAM, Kind::Colon)?;
    let mode = mode(cursor)?;
    let type_name = name(alloc, cursor, levels, PROGRAM)?;
    Ok(Param {
        names,
        mode,
        type_name,
    })
}

// params = param {";" param}
#[tactic(auto, using(crate::proofs::Turns::more_params_is), unfolding(crate::specs::Units::params))]
fn params(alloc: Global, cursor: &mut Cursor<'_>, levels: u32) -> Result<Items<Param>, Stop>
    ensures { Reads (read.params levels cursor.old) result cursor.new }
{
    let mut params = Items::new(alloc);
    params.push(param(alloc, cursor, levels)?)?;
    'more: while cursor.sees(PROGRAM, Kind::Semicolon) {
        cursor.expect(PROGRAM, Kind::Semicolon)?;
        params.push(param(alloc, cursor, levels)?)?;
    }
    Ok(params)
}

// formal_part = "(" params ")"
#[tactic(auto, unfolding(crate::specs::Units::formal_part))]
fn formal_part(alloc: Global, cursor: &mut Cursor<'_>, levels: u32) -> Result<FormalPart, Stop>
    ensures { Reads (read.formal_part levels cursor.old) result cursor.new }
{
    let place = cursor.expect_place(PROGRAM, Kind::LeftParenthesis)?;
    let params = params(alloc, cursor, levels)?;
    cursor.expect(PROGRAM, Kind::RightParenthesis)?;
    Ok(FormalPart { place, params })
}

// [formal_part]
#[tactic(auto, unfolding(spx_cursor::specs::Reading::if_seen))]
fn optional_formal_part(
    alloc: Global,
    cursor: &mut Cursor<'_>,
    levels: u32,
) -> Result<Option<FormalPart>, Stop>
    ensures { Reads (reading.if_seen program k.LeftParenthesis (read.formal_part levels) cursor.old) result cursor.new }
{
    if cursor.sees(PROGRAM, Kind::LeftParenthesis) {
        return Ok(Some(formal_part(alloc, cursor, levels)?));
    }
    Ok(None)
}

// [identifier]
#[tactic(auto, unfolding(spx_cursor::specs::Reading::if_seen))]
fn end_name(alloc: Global, cursor: &mut Cursor<'_>) -> Result<Option<Identifier>, Stop>
    ensures { Reads (reading.if_seen program k.Identifier (reading.identifier program) cursor.old) result cursor.new }
{
    if cursor.sees(PROGRAM, Kind::Identifier) {
        return Ok(Some(cursor.identifier(alloc, PROGRAM)?));
    }
    Ok(None)
}

// heading = "procedure" identifier [formal_part] [derives] ["pre" predicate ";"] ["post" predicate ";"]
#[tactic(auto, unfolding(crate::specs::Units::heading))]
fn heading(alloc: Global, cursor: &mut Cursor<'_>, levels: u32) -> Result<Boxed<HeadingParts>, Stop>
    ensures { Reads (read.heading levels cursor.old) result cursor.new }
{
    let place = cursor.expect_place(PROGRAM, Kind::Procedure)?;
    let name = cursor.identifier(alloc, PROGRAM)?;
    let formal_part = optional_formal_part(alloc, cursor, levels)?;
    let derives = optional_derives(alloc, cursor, levels)?;
    let pre = optional_predicate(alloc, cursor, levels, Kind::Pre)?;
    let post = optional_predicate(alloc, cursor, levels, Kind::Post)?;
    let parts = HeadingParts {
        place,
        name,
        formal_part,
        derives,
        pre,
        post,
    };
    Ok(Boxed::new(alloc, parts)?)
}

// body = "is" declarations "begin" stmts "end" [identifier] ";"
#[tactic(auto, unfolding(crate::specs::Units::body))]
fn body(alloc: Global, cursor: &mut Cursor<'_>, levels: u32) -> Result<BodyParts, Stop>
    ensures { Reads (read.body levels cursor.old) result cursor.new }
{
    cursor.expect(PROGRAM, Kind::Is)?;
    let declarations = declarations(alloc, cursor, levels)?;
    cursor.expect(PROGRAM, Kind::Begin)?;
    let statements = stmts(alloc, cursor, levels)?;
    let end = cursor.expect_place(PROGRAM, Kind::End)?;
    let end_name = end_name(alloc, cursor)?;
    cursor.expect(PROGRAM, Kind::Semicolon)?;
    Ok(BodyParts {
        declarations,
        statements,
        end,
        end_name,
    })
}

/// The subprogram of these parts.
fn whole(heading: HeadingParts, body: BodyParts) -> Subprogram
    ensures { result ≡ read.whole heading body }
{
    Subprogram {
        place: heading.place,
        name: heading.name,
        formal_part: heading.formal_part,
        derives: heading.derives,
        pre: heading.pre,
        post: heading.post,
        declarations: body.declarations,
        statements: body.statements,
        end: body.end,
        end_name: body.end_name,
    }
}

// subprogram = heading body
#[tactic(auto, unfolding(crate::specs::Units::subprogram))]
fn subprogram(
    alloc: Global,
    cursor: &mut Cursor<'_>,
    levels: u32,
) -> Result<Boxed<Subprogram>, Stop>
    ensures { Reads (read.subprogram levels cursor.old) result cursor.new }
{
    let heading = heading(alloc, cursor, levels)?;
    let body = body(alloc, cursor, levels)?;
    Ok(Boxed::new(alloc, whole(heading.into_inner(), body))?)
}

#[tactic(auto, unfolding(crate::specs::Units::unit_at))]
fn unit_at(alloc: Global, cursor: &mut Cursor<'_>, levels: u32) -> Result<Unit, Stop>
    ensures { Reads (read.unit_at levels cursor.old) result cursor.new }
{
    Ok(Unit::Subprogram(subprogram(alloc, cursor, levels)?))
}

/// Reads units, as many as there are.
#[tactic(auto, using(crate::proofs::Turns::more_units_is), unfolding(crate::specs::Units::file))]
pub fn file(alloc: Global, cursor: &mut Cursor<'_>, levels: u32) -> Result<Items<Unit>, Stop>
    ensures { Reads (read.file levels cursor.old) result cursor.new }
{
    let mut units = Items::new(alloc);
    'more: while cursor.sees(PROGRAM, Kind::Procedure) {
        units.push(unit_at(alloc, cursor, levels)?)?;
    }
    Ok(units)
}
