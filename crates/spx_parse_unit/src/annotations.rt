// From tokens to lists of names and the annotations of a subprogram (Barnes, High Integrity Software).
ghost use Rattle.std.specs.Prelude.{◌≡◌};
ghost use Rattle.spx_tree.specs.Form.{keeps, ItsPlace};
ghost use Rattle.spx_tree.specs.Written.{annotation};
ghost use Rattle.spx_tree.specs.declared.token.Kind.TheVariants as k;
ghost use Rattle.spx_cursor.specs.Reading as reading;
ghost use Rattle.spx_parse_body.specs.Expressions as expressions;
ghost use Rattle.spx_parse_unit.specs.Units as read;
ghost use Rattle.spx_cursor.specs.Answers.{Reads};

use spx_cursor::{ANNOTATION, Cursor, Stop};
use spx_parse_body::{name, predicate_after};
use spx_tree::{Derives, DerivesItem, Exports, Identifier, Imports, Kind, Name, Predicate};
use sqlite_items::Items;
use std::alloc::Global;

// {"," identifier}
#[tactic(auto, using(crate::proofs::Turns::more_identifiers_is))]
fn more_identifiers(
    alloc: Global,
    cursor: &mut Cursor<'_>,
    marked: bool,
    found: Items<Identifier>,
) -> Result<Items<Identifier>, Stop>
    ensures { Reads (read.more_identifiers marked found cursor.old) result cursor.new }
{
    let mut identifiers = found;
    'more: while cursor.sees(marked, Kind::Comma) {
        cursor.expect(marked, Kind::Comma)?;
        identifiers.push(cursor.identifier(alloc, marked)?)?;
    }
    Ok(identifiers)
}

/// Reads identifiers, one or more.
#[tactic(auto, unfolding(crate::specs::Units::identifiers))]
pub fn identifiers(
    alloc: Global,
    cursor: &mut Cursor<'_>,
    marked: bool,
) -> Result<Items<Identifier>, Stop>
    ensures { Reads (read.identifiers marked cursor.old) result cursor.new }
{
    let mut identifiers = Items::new(alloc);
    identifiers.push(cursor.identifier(alloc, marked)?)?;
    more_identifiers(alloc, cursor, marked, identifiers)
}

// {"," name}
#[tactic(auto, using(crate::proofs::Turns::more_names_is))]
fn more_names(
    alloc: Global,
    cursor: &mut Cursor<'_>,
    levels: u32,
    marked: bool,
    found: Items<Name>,
) -> Result<Items<Name>, Stop>
    ensures { Reads (read.more_names marked levels found cursor.old) result cursor.new }
{
    let mut names = found;
    'more: while cursor.sees(marked, Kind::Comma) {
        cursor.expect(marked, Kind::Comma)?;
        names.push(name(alloc, cursor, levels, marked)?)?;
    }
    Ok(names)
}

// names = name {"," name}
#[tactic(auto, unfolding(crate::specs::Units::names))]
fn names(
    alloc: Global,
    cursor: &mut Cursor<'_>,
    levels: u32,
    marked: bool,
) -> Result<Items<Name>, Stop>
    ensures { Reads (read.names marked levels cursor.old) result cursor.new }
{
    let mut names = Items::new(alloc);
    names.push(name(alloc, cursor, levels, marked)?)?;
    more_names(alloc, cursor, levels, marked, names)
}

// starred = "*" {"," name}
#[tactic(auto, unfolding(crate::specs::Units::starred))]
fn starred(alloc: Global, cursor: &mut Cursor<'_>, levels: u32) -> Result<Imports, Stop>
    ensures { Reads (read.starred levels cursor.old) result cursor.new }
{
    let place = cursor.expect_place(ANNOTATION, Kind::Asterisk)?;
    let names = more_names(alloc, cursor, levels, ANNOTATION, Items::new(alloc))?;
    Ok(Imports {
        itself: Some(place),
        names,
    })
}

#[tactic(auto, unfolding(crate::specs::Units::unstarred))]
fn unstarred(alloc: Global, cursor: &mut Cursor<'_>, levels: u32) -> Result<Imports, Stop>
    ensures { Reads (read.unstarred levels cursor.old) result cursor.new }
{
    let names = names(alloc, cursor, levels, ANNOTATION)?;
    Ok(Imports {
        itself: None,
        names,
    })
}

// imports = [starred | names]
#[tactic(auto, unfolding(crate::specs::Units::imports))]
fn imports(alloc: Global, cursor: &mut Cursor<'_>, levels: u32) -> Result<Imports, Stop>
    ensures { Reads (read.imports levels cursor.old) result cursor.new }
{
    match cursor.peek(ANNOTATION) {
        Some(Kind::Asterisk) => starred(alloc, cursor, levels),
        Some(Kind::Identifier) => unstarred(alloc, cursor, levels),
        _ => Ok(Imports {
            itself: None,
            names: Items::new(alloc),
        }),
    }
}

// named_item = names "from" imports
#[tactic(auto, unfolding(crate::specs::Units::named_item))]
fn named_item(alloc: Global, cursor: &mut Cursor<'_>, levels: u32) -> Result<DerivesItem, Stop>
    ensures { Reads (read.named_item levels cursor.old) result cursor.new }
{
    let names = names(alloc, cursor, levels, ANNOTATION)?;
    cursor.expect(ANNOTATION, Kind::From)?;
    let imports = imports(alloc, cursor, levels)?;
    let exports = Exports::Names(names);
    Ok(DerivesItem { exports, imports })
}

// null_item = "null" "from" names
#[tactic(auto, unfolding(crate::specs::Units::null_item))]
fn null_item(alloc: Global, cursor: &mut Cursor<'_>, levels: u32) -> Result<DerivesItem, Stop>
    ensures { Reads (read.null_item levels cursor.old) result cursor.new }
{
    let place = cursor.expect_place(ANNOTATION, Kind::Null)?;
    cursor.expect(ANNOTATION, Kind::From)?;
    let imports = unstarred(alloc, cursor, levels)?;
    let exports = Exports::Null(place);
    Ok(DerivesItem { exports, imports })
}

// item = named_item | null_item
#[tactic(auto, unfolding(crate::specs::Units::item))]
fn item(alloc: Global, cursor: &mut Cursor<'_>, levels: u32) -> Result<DerivesItem, Stop>
    ensures { Reads (read.item levels cursor.old) result cursor.new }
{
    match cursor.peek(ANNOTATION) {
        Some(Kind::Identifier) => named_item(alloc, cursor, levels),
        Some(Kind::Null) => null_item(alloc, cursor, levels),
        _ => Err(cursor.expected()),
    }
}

// items = item {"&" item}
#[tactic(auto, using(crate::proofs::Turns::more_derives_is), unfolding(crate::specs::Units::items))]
fn items(alloc: Global, cursor: &mut Cursor<'_>, levels: u32) -> Result<Items<DerivesItem>, Stop>
    ensures { Reads (read.items levels cursor.old) result cursor.new }
{
    let mut items = Items::new(alloc);
    items.push(item(alloc, cursor, levels)?)?;
    'more: while cursor.sees(ANNOTATION, Kind::Ampersand) {
        cursor.expect(ANNOTATION, Kind::Ampersand)?;
        items.push(item(alloc, cursor, levels)?)?;
    }
    Ok(items)
}

// derives = "derives" items ";"
#[tactic(auto, unfolding(crate::specs::Units::derives))]
fn derives(alloc: Global, cursor: &mut Cursor<'_>, levels: u32) -> Result<Derives, Stop>
    ensures { Reads (read.derives levels cursor.old) result cursor.new }
{
    let place = cursor.expect_place(ANNOTATION, Kind::Derives)?;
    let items = items(alloc, cursor, levels)?;
    cursor.expect(ANNOTATION, Kind::Semicolon)?;
    Ok(Derives { place, items })
}

/// Reads a dependency relation, if there is one.
#[tactic(auto, unfolding(spx_cursor::specs::Reading::if_seen))]
pub fn optional_derives(
    alloc: Global,
    cursor: &mut Cursor<'_>,
    levels: u32,
) -> Result<Option<Derives>, Stop>
    ensures { Reads (reading.if_seen annotation k.Derives (read.derives levels) cursor.old) result cursor.new }
{
    if cursor.sees(ANNOTATION, Kind::Derives) {
        return Ok(Some(derives(alloc, cursor, levels)?));
    }
    Ok(None)
}

/// Reads a predicate after this word, if the word comes next.
#[tactic(auto, unfolding(spx_cursor::specs::Reading::if_seen))]
pub fn optional_predicate(
    alloc: Global,
    cursor: &mut Cursor<'_>,
    levels: u32,
    word: Kind,
) -> Result<Option<Predicate>, Stop>
    requires { keeps word ≡ ItsPlace }
    ensures { Reads (reading.if_seen annotation word (expressions.predicate_after word levels) cursor.old) result cursor.new }
{
    if cursor.sees(ANNOTATION, word) {
        return Ok(Some(predicate_after(alloc, cursor, levels, word)?));
    }
    Ok(None)
}
