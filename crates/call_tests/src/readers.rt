//! A reader by itself.

use crate::checks::{holds, same};
use sql_reader::{
    ErrorKind, Item, Keyword, Omitted, ReadError, Reader, is_name_ahead, read_name, same_word,
    unsupported_clause,
};
use std::alloc::Global;
use std::process::Abort;
use std::test::Fail;

/// Fails the test unless this is refused as `Expected` at this byte.
fn expect_expected<T: Drop>(rt: &impl Abort, found: Result<T, ReadError>, place: usize) {
    match found {
        Ok(_taken) => holds(rt, false),
        Err(error) => {
            same(rt, error.kind.name(), "Expected");
            same(rt, error.place, place);
        }
    }
}

/// Whether the reader may continue.
fn is_more_ahead(r: &Reader) -> Result<bool, ReadError> {
    r.more_ahead()
}

/// Takes this token, and returns its place.
fn taken(r: &mut Reader, item: Item, what: &'static str) -> Result<usize, ReadError> {
    r.expect(item, what)
}

/// Looks at the token ahead.
fn look(r: &Reader) -> Result<(), ReadError> {
    r.look()
}

/// At `Table One ; $`: a word, which is not a name.
fn takes_a_keyword(rt: &impl Abort, r: &mut Reader) -> Result<(), Fail> {
    holds(rt, is_more_ahead(r)?);
    holds(rt, r.item().is_some());
    holds(rt, same_word(r.written(), "TABLE"));
    holds(rt, !is_name_ahead(r));
    same(rt, taken(r, Item::Keyword(Keyword::Table), "TABLE")?, 0);
    Ok(())
}

/// At `One ; $`.
fn takes_a_name(rt: &impl Abort, alloc: Global, r: &mut Reader) -> Result<(), Fail> {
    holds(rt, is_name_ahead(r));
    let name = read_name(r, alloc, "a name")?;
    same(rt, name.text.as_str(), "one");
    same(rt, name.place, 6);
    Ok(())
}

/// At `; $`: a token that is refused stays ahead.
fn takes_no_comma(rt: &impl Abort, r: &mut Reader) -> Result<(), Fail> {
    look(r)?;
    let found = taken(r, Item::Comma, "`,`");
    expect_expected(rt, found, 10);
    holds(rt, r.next_is(Item::Semicolon)?);
    holds(rt, r.is(Item::Semicolon));
    r.advance();
    Ok(())
}

/// At `$`, which is not a token.
fn sees_no_token(rt: &impl Abort, r: &Reader) -> Result<(), Fail> {
    holds(rt, r.item().is_none());
    holds(rt, look(r).is_err());
    holds(rt, is_more_ahead(r).is_err());
    let refusal = r.refusal("a name");
    same(rt, (refusal.kind.name(), refusal.place), ("BadToken", 12));
    let clause = unsupported_clause(r);
    same(rt, clause.place, 12);
    holds(
        rt,
        matches!(clause.kind, ErrorKind::LeftOut(Omitted::Constraint)),
    );
    Ok(())
}

#[test]
fn a_reader_looks_before_it_takes(rt: HostRuntime) -> Result<(), Fail> {
    let alloc = rt.alloc();
    let mut r = Reader::new("Table One ; $");
    takes_a_keyword(&rt, &mut r)?;
    takes_a_name(&rt, alloc, &mut r)?;
    takes_no_comma(&rt, &mut r)?;
    sees_no_token(&rt, &r)?;
    Ok(())
}

#[test]
fn names_kinds_without_what_they_carry(rt: HostRuntime) {
    same(&rt, ErrorKind::Expected("`;`").name(), "Expected");
    same(&rt, ErrorKind::OutOfMemory.name(), "OutOfMemory");
}
