//! SQL expressions as text.
ghost use Rattle.std.specs.Prelude.{◌≡◌, ◌<◌, ◌∷◌, ◌++◌, false, IfOk, string_bytes, codes};
ghost use Rattle.std.specs.Rc.{rc_str_bytes};
ghost use Rattle.std.specs.Char.{encode_utf8};
ghost use Rattle.std.specs.Fmt.{WritesOnOk};
ghost use Rattle.cedar_sql.specs.Texts as texts;

use crate::columns::TableNames;
use crate::terms::SqlTerm;
use cedar_filter::Comparison;
use std::alloc::{AllocError, Global};
use std::fmt;
use std::fmt::Display;
use std::rc::RcStr;

/// The expression as SQL text, where the table and its columns are called so. Each column is written with its table, as
/// `"doc"."size"`: both names in `"`, and apart. A text stands in `'`, and a quote within quotes twice. A column that has no
/// name here is written `"doc".""`. The text compares as the expression does where the columns are of the collation
/// BINARY. Refuses only if out of memory.
///
/// The bytes are promised. That SQL reads this expression of them is tested, not proved; and so is that a column which the
/// table lacks is an error of the database. Without its table SQLite takes `"size"` for a text where no column is called
/// so. The kit's grammar refuses more than 60 expressions in one another, as in a condition with so many `&&`; a chain of
/// `OR` is one.
pub fn term_to_sql(alloc: Global, term: &SqlTerm, names: &TableNames) -> Result<String, AllocError>
    ensures { IfOk result (λ t. string_bytes t ≡ texts.term_text names.now false term.now) }
{
    format!(in alloc; "{}", Named { term, names })
}

/// An expression, where the table and its columns are called so.
#[derive(Drop)]
struct Named<'a> {
    term: &'a SqlTerm,
    names: &'a TableNames,
}

impl fmt::Display for Named<'_> {
    ghost use Rattle.std.specs.Prelude.{Some, false};
    ghost use Rattle.cedar_sql.specs.Texts.{term_text};

    ghost output = { λ w. Some (term_text w.names.now false w.term.now) };

    fn fmt<W: fmt::Write>(&self, f: &mut fmt::Formatter<W>) -> fmt::Result {
        write_term(self.term, self.names, false, f)
    }
}

// Writes the expression; the front of a chain of `OR` without brackets.
#[cycle(write)]
fn write_term<W: fmt::Write>(
    term: &SqlTerm,
    names: &TableNames,
    in_chain: bool,
    f: &mut fmt::Formatter<W>,
) -> fmt::Result
    ensures { WritesOnOk W.write_str_gives f.old result (texts.term_text names.now in_chain term.now) f.new }
{
    match term {
        SqlTerm::Null => f.write_str("NULL"),
        SqlTerm::Number(number) => number.fmt(f),
        SqlTerm::Text(text) => write_quoted('\'', text.as_str(), f),
        SqlTerm::Column(place) => write_column(*place, names, f),
        SqlTerm::IsNull(part) => write_one("(", part, names, " IS NULL)", f),
        SqlTerm::Not(part) => write_one("(NOT ", part, names, ")", f),
        SqlTerm::Is(part, holds) => write_one("(", part, names, is_text(*holds), f),
        SqlTerm::And(first, second) => write_two("(", false, first, " AND ", second, ")", names, f),
        SqlTerm::Or(first, second) => write_two(
            opening(in_chain),
            true,
            first,
            " OR ",
            second,
            closing(in_chain),
            names,
            f,
        ),
        SqlTerm::Compare(comparison, first, second) => write_two(
            "(",
            false,
            first,
            sign_text(*comparison),
            second,
            ")",
            names,
            f,
        ),
        SqlTerm::Instr(text, part) => write_two("instr(", false, text, ", ", part, ")", names, f),
        SqlTerm::Choice(test, yes, no) => write_choice(test, yes, no, names, f),
    }
}

#[cycle(write)]
fn write_one<W: fmt::Write>(
    before: &str,
    part: &SqlTerm,
    names: &TableNames,
    after: &str,
    f: &mut fmt::Formatter<W>,
) -> fmt::Result
    ensures { WritesOnOk W.write_str_gives f.old result
        (before.now ++ (texts.term_text names.now false part.now ++ after.now)) f.new }
{
    f.write_str(before)?;
    write_term(part, names, false, f)?;
    f.write_str(after)
}

#[cycle(write)]
fn write_two<W: fmt::Write>(
    before: &str,
    in_chain: bool,
    first: &SqlTerm,
    between: &str,
    second: &SqlTerm,
    after: &str,
    names: &TableNames,
    f: &mut fmt::Formatter<W>,
) -> fmt::Result
    ensures { WritesOnOk W.write_str_gives f.old result
        (before.now ++ (texts.term_text names.now in_chain first.now
        ++ (between.now ++ (texts.term_text names.now false second.now ++ after.now)))) f.new }
{
    f.write_str(before)?;
    write_term(first, names, in_chain, f)?;
    write_one(between, second, names, after, f)
}

#[cycle(write)]
fn write_choice<W: fmt::Write>(
    test: &SqlTerm,
    yes: &SqlTerm,
    no: &SqlTerm,
    names: &TableNames,
    f: &mut fmt::Formatter<W>,
) -> fmt::Result
    ensures { WritesOnOk W.write_str_gives f.old result
        (codes "CASE " ++ (texts.term_text names.now false test.now
        ++ (codes " WHEN 1 THEN " ++ (texts.term_text names.now false yes.now
        ++ (codes " WHEN 0 THEN " ++ (texts.term_text names.now false no.now ++ codes " END")))))) f.new }
{
    f.write_str("CASE ")?;
    write_term(test, names, false, f)?;
    write_two(
        " WHEN 1 THEN ",
        false,
        yes,
        " WHEN 0 THEN ",
        no,
        " END",
        names,
        f,
    )
}

// ---- pieces

fn opening(in_chain: bool) -> &'static str
    ensures { result.now ≡ texts.opening in_chain }
{
    if in_chain { "" } else { "(" }
}

fn closing(in_chain: bool) -> &'static str
    ensures { result.now ≡ texts.closing in_chain }
{
    if in_chain { "" } else { ")" }
}

fn is_text(holds: bool) -> &'static str
    ensures { result.now ≡ texts.is_text holds }
{
    if holds { " IS 1)" } else { " IS 0)" }
}

fn sign_text(comparison: Comparison) -> &'static str
    ensures { result.now ≡ texts.sign_text comparison }
{
    match comparison {
        Comparison::Equal => " = ",
        Comparison::Less => " < ",
        Comparison::LessEq => " <= ",
    }
}

// ---- columns and quotes

fn write_column<W: fmt::Write>(
    place: usize,
    names: &TableNames,
    f: &mut fmt::Formatter<W>,
) -> fmt::Result
    ensures { WritesOnOk W.write_str_gives f.old result (texts.column_text names.now place) f.new }
{
    write_quoted('"', names.table.as_str(), f)?;
    f.write_str(".")?;
    write_quoted('"', name_at(names.columns.as_slice(), place), f)
}

fn name_at(names: &[RcStr], place: usize) -> &str
    ensures { result.now ≡ texts.name_at names.now place }
{
    match names.get(place) {
        Some(name) => name.as_str(),
        None => "",
    }
}

fn write_quoted<W: fmt::Write>(mark: char, text: &str, f: &mut fmt::Formatter<W>) -> fmt::Result
    requires { mark < 128 }
    ensures { WritesOnOk W.write_str_gives f.old result (texts.quoted mark text.now) f.new }
{
    f.write_char(mark)?;
    write_doubled(mark, text, f)?;
    f.write_char(mark)
}

#[tactic(auto, using(crate::proofs::Doubling::doublings))]
fn write_doubled<W: fmt::Write>(mark: char, text: &str, f: &mut fmt::Formatter<W>) -> fmt::Result
    requires { mark < 128 }
    ensures { WritesOnOk W.write_str_gives f.old result (texts.doubled mark text.now) f.new }
{
    'characters: for character in text.chars() {
        write_character(mark, character, f)?;
    }
    Ok(())
}

#[tactic(auto, using(crate::proofs::Doubling::doublings))]
fn write_character<W: fmt::Write>(
    mark: char,
    character: char,
    f: &mut fmt::Formatter<W>,
) -> fmt::Result
    requires { mark < 128 }
    ensures { WritesOnOk W.write_str_gives f.old result (texts.doubled mark (encode_utf8 character)) f.new }
{
    if character == mark {
        write_twice(character, f)
    } else {
        f.write_char(character)
    }
}

fn write_twice<W: fmt::Write>(character: char, f: &mut fmt::Formatter<W>) -> fmt::Result
    ensures { WritesOnOk W.write_str_gives f.old result (encode_utf8 character ++ encode_utf8 character) f.new }
{
    f.write_char(character)?;
    f.write_char(character)
}
