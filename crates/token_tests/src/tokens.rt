//! The tokens of scripts, or their first refusals.
use apl_base::Cell;
use apl_model::{Lines, ReadFault, Token, Word};
use apl_read::tokens;
use std::alloc::Global;
use std::fmt::Write;
use std::test::Fail;

/// The cells of a literal, each behind a mark.
fn show_cells(text: &mut String, mark: char, cells: &[Cell]) -> Result<(), Fail> {
    for cell in cells {
        write!(text, "{mark}{cell}")?;
    }
    Ok(())
}

/// The columns of a token, and what it is: numbers after `#`, characters after `'`, a name or a glyph.
fn show_token(text: &mut String, token: &Token) -> Result<(), Fail> {
    let Token { from, past, .. } = token;
    write!(text, " {from}-{past} ")?;
    match &token.word {
        Word::Numbers { cells } => show_cells(text, '#', cells.as_slice())?,
        Word::Chars { cells } => show_cells(text, '\'', cells.as_slice())?,
        Word::Name { name } => text.push_str(name.as_str())?,
        Word::Glyph { glyph } => text.push(*glyph)?,
    }
    Ok(())
}

/// The lines with their tokens.
fn show_lines(alloc: Global, lines: &Lines) -> Result<String, Fail> {
    let mut text = String::new(alloc);
    for line in lines.lines.as_slice() {
        let number = line.number;
        write!(text, "{number}:")?;
        for token in line.tokens.as_slice() {
            show_token(&mut text, token)?;
        }
        text.push_str(";")?;
    }
    Ok(text)
}

/// What `tokens` answers.
fn shown(alloc: Global, script: &[u8]) -> Result<String, Fail> {
    match tokens(alloc, script) {
        Ok(lines) => show_lines(alloc, &lines),
        Err(ReadFault::NoMemory) => Ok(String::from_str(alloc, "memory was wanting")?),
        Err(ReadFault::Refused { refusal }) => {
            let (line, column, cause) = (refusal.line, refusal.column, refusal.cause);
            Ok(format!(in alloc; "REFUSED {line} {column} {cause:?}")?)
        }
    }
}

/// Fails with what is wanted, where something else is told.
fn tells(alloc: Global, script: &[u8], wanted: &'static str) -> Result<(), Fail> {
    let told = shown(alloc, script)?;
    if told.as_str() == wanted {
        return Ok(());
    }
    Err(Fail::from(wanted))
}

/// Scripts with their tokens, or their refusals.
#[rattlefmt::skip]
const SCRIPTS: [(&str, &str); 33] = [
    // Lines.
    ("", ""),
    ("\n\n", "1:;2:;"),
    ("\u{feff}A\r\nB\r", "1: 1-2 A;2: 1-2 B;"),
    ("A\u{feff}", "REFUSED 1 2 Character"),
    ("A\rB", "REFUSED 1 2 Character"),
    // Blanks, comments, names.
    (" \tA_1∆⍙ b", "1: 3-8 A_1∆⍙ 9-10 b;"),
    ("A⍝é'@1.5", "1: 1-2 A;"),
    ("⍝", "1:;"),
    ("2A", "REFUSED 1 1 Number"),
    ("é", "REFUSED 1 1 Character"),
    // Texts.
    ("'A'", "1: 1-4 '65;"),
    ("''", "1: 1-3 ;"),
    ("'A''⍝é'B", "1: 1-8 '65'39'9053'233 8-9 B;"),
    ("''''", "1: 1-5 '39;"),
    ("A 'B\n'", "REFUSED 1 3 OpenText"),
    ("'AB", "REFUSED 1 1 OpenText"),
    // Numbers.
    ("007 ¯0 ¯12", "1: 1-11 #7#0#-12;"),
    ("1 2 A 3", "1: 1-4 #1#2 5-6 A 7-8 #3;"),
    (
        "1000000000000000000000000000000000000",
        "1: 1-38 #1000000000000000000000000000000000000;",
    ),
    (
        "A ¯1000000000000000000000000000000000001",
        "REFUSED 1 3 Number",
    ),
    ("3.5", "REFUSED 1 1 Number"),
    ("1 ¯", "REFUSED 1 3 Number"),
    ("1¯2", "REFUSED 1 1 Number"),
    // Glyphs, and second spellings.
    (
        "+-*|~!<=>,/\\",
        "1: 1-2 + 2-3 - 3-4 * 4-5 | 5-6 ~ 6-7 ! 7-8 < 8-9 = 9-10 > 10-11 , 11-12 / 12-13 \\;",
    ),
    (
        ".:;()[]×÷⌈⌊∧",
        "1: 1-2 . 2-3 : 3-4 ; 4-5 ( 5-6 ) 6-7 [ 7-8 ] 8-9 × 9-10 ÷ 10-11 ⌈ 11-12 ⌊ 12-13 ∧;",
    ),
    (
        "∨⍲⍱≤≥≠⍳⍴⌽⊖⍉↑",
        "1: 1-2 ∨ 2-3 ⍲ 3-4 ⍱ 4-5 ≤ 5-6 ≥ 6-7 ≠ 7-8 ⍳ 8-9 ⍴ 9-10 ⌽ 10-11 ⊖ 11-12 ⍉ 12-13 ↑;",
    ),
    (
        "↓⌿⍀∈⊤⊥⍋⍒∘←→⎕∇",
        "1: 1-2 ↓ 2-3 ⌿ 3-4 ⍀ 4-5 ∈ 5-6 ⊤ 6-7 ⊥ 7-8 ⍋ 8-9 ⍒ 9-10 ∘ 10-11 ← 11-12 → 12-13 ⎕ 13-14 ∇;",
    ),
    ("∼∣⋆∊^", "1: 1-2 ~ 2-3 | 3-4 * 4-5 ∈ 5-6 ∧;"),
    // The first refusal.
    ("2@3", "REFUSED 1 2 Character"),
    ("@ 'A", "REFUSED 1 1 Character"),
    ("A 'B 3.5 @", "REFUSED 1 3 OpenText"),
    ("A]\n3.5", "REFUSED 2 1 Number"),
    ("A 1.5\nA\n@", "REFUSED 1 3 Number"),
];

/// Bytes that are no text from somewhere on: nothing is read from there.
#[rattlefmt::skip]
const BYTES: [(&[u8], &str); 8] = [
    (b"2+\xff", "REFUSED 1 3 Utf8"),
    (b"\xff2@3", "REFUSED 1 1 Utf8"),
    (b"2@3\xff", "REFUSED 1 2 Character"),
    (b"'AB\xff'", "REFUSED 1 1 OpenText"),
    (b"A\n\xc3", "REFUSED 2 1 Utf8"),
    (b"A\r\xff\n", "REFUSED 1 3 Utf8"),
    (b"\xef\xbb\xbf1 3.5\n\xff", "REFUSED 1 3 Number"),
    (b"1 3\xff.5", "REFUSED 1 4 Utf8"),
];

/// So many blanks, and what stands after them on the line.
#[rattlefmt::skip]
const BLANKS: [(usize, &[u8], &str); 8] = [
    (1000, b"", "1:;"),
    (1000, b"\r", "1:;"),
    (1001, b"", "REFUSED 1 1001 LineLong"),
    (1000, b"\xff", "REFUSED 1 1001 Utf8"),
    (1001, b"\xff", "REFUSED 1 1001 LineLong"),
    (999, b"@@", "REFUSED 1 1000 Character"),
    (1000, b"@", "REFUSED 1 1001 LineLong"),
    (999, b"'A'", "REFUSED 1 1001 LineLong"),
];

/// A line of this many blanks, and then this.
fn blanks(alloc: Global, count: usize, then: &[u8]) -> Result<Vec<u8>, Fail> {
    let mut script = vec![in alloc; b' '; count]?;
    script.extend_from_slice(then)?;
    Ok(script)
}

// Each line of the table has these tokens, or stops at this column.
#[test]
fn each_rule_of_the_tokens(rt: HostRuntime) -> Result<(), Fail> {
    let alloc = rt.alloc();
    for (script, wanted) in SCRIPTS.iter() {
        tells(alloc, script.as_bytes(), wanted)?;
    }
    for (script, wanted) in BYTES.iter() {
        tells(alloc, script, wanted)?;
    }
    for (count, then, wanted) in BLANKS.iter() {
        let script = blanks(alloc, *count, then)?;
        tells(alloc, script.as_slice(), wanted)?;
    }
    Ok(())
}
