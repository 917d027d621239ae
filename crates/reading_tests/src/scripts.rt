//! The items of scripts, or their first refusals.
use apl_defn::script_of_bytes;
use apl_model::{Definition, ReadFault, Script, ScriptItem};
use std::alloc::Global;
use std::fmt::Write;
use std::test::Fail;

/// A definition by the numbers of its lines, with its labels.
fn show_definition(text: &mut String, definition: &Definition) -> Result<(), Fail> {
    let Definition { opened, closed, .. } = definition;
    let name = definition.header.f.as_str();
    write!(text, " {opened}-{closed} {name}")?;
    for line in definition.body.as_slice() {
        let number = line.line;
        match &line.label {
            Some(label) => {
                let label = label.as_str();
                write!(text, " {number}:{label}")?;
            }
            None => write!(text, " {number}")?,
        }
    }
    text.push_str(";")?;
    Ok(())
}

/// The items of a script, by the numbers of their lines.
fn show_items(alloc: Global, script: &Script) -> Result<String, Fail> {
    let count = script.lines.len();
    let mut text = format!(in alloc; "{count} lines:")?;
    for item in script.items.as_slice() {
        match item {
            ScriptItem::Statement { line, .. } => write!(text, " {line};")?,
            ScriptItem::Command { line, .. } => write!(text, " {line} command;")?,
            ScriptItem::Definition { definition } => show_definition(&mut text, definition)?,
        }
    }
    Ok(text)
}

/// The first refusal of a script, or that it is accepted.
fn answer(alloc: Global, script: &[u8]) -> Result<String, Fail> {
    match script_of_bytes(alloc, script) {
        Ok(_) => Ok(String::from_str(alloc, "accepted")?),
        Err(ReadFault::NoMemory) => Ok(String::from_str(alloc, "memory was wanting")?),
        Err(ReadFault::Refused { refusal }) => {
            let (line, column, cause) = (refusal.line, refusal.column, refusal.cause);
            Ok(format!(in alloc; "{line} {column} {cause:?}")?)
        }
    }
}

/// Fails with what is wanted, where something else is told.
fn tells(alloc: Global, script: &[u8], wanted: &'static str) -> Result<(), Fail> {
    let told = answer(alloc, script)?;
    if told.as_str() == wanted {
        return Ok(());
    }
    Err(Fail::from(wanted))
}

/// Scripts with their first refusals.
#[rattlefmt::skip]
const SCRIPTS: [(&str, &str); 137] = [
    // Accepted.
    ("", "accepted"),
    ("\n \n⍝ ∇\n", "accepted"),
    ("A←'∇F'\n→A", "accepted"),
    ("∇F\n∇", "accepted"),
    ("∇ F ⍝ a comment\n1\n∇ ⍝ the end", "accepted"),
    ("∇F X;Y;Z\n∇", "accepted"),
    ("∇Z←X F Y;L\nM:\n'∇ F'\n\n⍝ ∇ G\n N : →M\n∇\n", "accepted"),
    (")VARS\n)FNS\n)ERASE A B\n)ORIGIN 0\n)ORIGIN 1", "accepted"),
    // The names of functions, before and after their definitions.
    ("F\n∇F\n∇\nF+F[1]", "accepted"),
    ("F 1\n∇Z←F X\n∇\n1+F-F 2", "accepted"),
    ("1 F 2\n∇Z←X F Y\n∇\n(1 F 2)F 3", "accepted"),
    ("∇F\nG 1\n∇\n∇G X\nF\nG X\n∇", "accepted"),
    ("F 1\n∇F\n∇", "1 3 Grammar"),
    ("∇F X\n∇\nF", "3 2 Grammar"),
    ("∇F X\n∇\n1 F 2", "3 3 Grammar"),
    ("∇Z←X F Y\n∇\nF 2", "3 1 Grammar"),
    ("∇Z←X F Y\n∇\n1 F", "3 4 Grammar"),
    ("∇F X\nX F X\n∇", "2 3 Grammar"),
    // The form of the first line, and a ∇ where none belongs.
    ("∇", "1 2 Header"),
    ("1\n ∇ ⍝ alone", "2 3 Header"),
    ("∇F\n∇\n∇", "3 2 Header"),
    ("∇3\n∇", "1 2 Header"),
    ("∇∇\n∇", "1 2 Header"),
    ("∇Z←\n∇", "1 4 Header"),
    ("∇Z←3\n∇", "1 4 Header"),
    ("∇F X Y Z\n∇", "1 8 Header"),
    ("∇F X Y 3\n∇", "1 8 Header"),
    ("∇F;\n∇", "1 4 Header"),
    ("∇F X;Y Z\n∇", "1 8 Header"),
    ("∇F X Y;\n∇", "1 8 Header"),
    ("∇Z←Y←F\n∇", "1 5 Header"),
    ("∇F\n1\n∇G\n∇", "3 2 Header"),
    ("∇F\n∇ ∇\n∇", "2 3 Header"),
    // Names that come twice.
    ("∇Z←F Z\n∇", "1 6 DoubleName"),
    ("∇F F\n∇", "1 4 DoubleName"),
    ("∇F;A;B;A\n∇", "1 8 DoubleName"),
    ("∇F X\nX:1\n∇", "2 1 DoubleName"),
    ("∇F\nF:1\n∇", "2 1 DoubleName"),
    ("∇F\nL:1\n2\n L:3\n∇", "4 2 DoubleName"),
    ("∇F\n∇\n∇F X\n∇", "3 2 DoubleName"),
    ("∇F\n∇\n1\n∇Z←X F Y\n∇", "4 6 DoubleName"),
    ("∇F\n∇\n∇G\n∇\n∇F\n∇\n∇G\n∇", "5 2 DoubleName"),
    ("∇F\nL:1\n∇\n∇G L\n∇", "accepted"),
    // Definitions that end nowhere.
    ("∇F", "1 1 OpenDefinition"),
    ("1\n ∇F\n2\n", "2 2 OpenDefinition"),
    ("∇F\n∇\n∇G\n⍝ ∇", "3 1 OpenDefinition"),
    // Names of functions where a variable is wanted.
    ("∇F\n∇\nF←3", "3 1 NameClass"),
    ("1+F←3\n∇F X\n∇", "1 3 NameClass"),
    ("∇F\n2+F←1\n∇", "2 3 NameClass"),
    ("∇F\nL:F←1\n∇", "2 3 NameClass"),
    (")ERASE A F\n∇F\n∇", "1 10 NameClass"),
    (")ERASE F\n∇F X\n∇", "1 8 NameClass"),
    (")ERASE F 1\n∇F X\n∇", "1 8 NameClass"),
    ("∇F\n∇\n∇G F\n∇", "3 4 NameClass"),
    ("∇F\n∇\n∇F←G\n∇", "3 2 NameClass"),
    ("∇G;A;F\n∇\n∇F\n∇", "1 6 NameClass"),
    ("∇F\nG:1\n∇\n∇G\n∇", "2 1 NameClass"),
    ("∇F\n∇\nF[1]←3", "3 5 Grammar"),
    // Lines without a tree.
    ("A]", "1 2 Grammar"),
    ("F←", "1 3 Grammar"),
    ("A:1", "1 2 Grammar"),
    ("1\n(2\n3", "2 3 Grammar"),
    ("∇F\n1+\n∇", "2 3 Grammar"),
    ("∇F\nA:B:C\n∇", "2 4 Grammar"),
    ("∇F\nA:+\n∇", "2 4 Grammar"),
    ("∇F\n)VARS\n∇", "2 1 Grammar"),
    ("∇F\n1 ∇\n∇", "2 3 Grammar"),
    ("1 ∇F", "1 3 Grammar"),
    (")", "1 2 Grammar"),
    (")X", "1 2 Grammar"),
    (")VARS 1", "1 7 Grammar"),
    (")ERASE", "1 7 Grammar"),
    (")ERASE 1", "1 8 Grammar"),
    (")ERASE A 1", "1 10 Grammar"),
    (")ORIGIN", "1 8 Grammar"),
    (")ORIGIN 2", "1 9 Grammar"),
    (")ORIGIN 1 0", "1 9 Grammar"),
    (")ORIGIN 1 A", "1 11 Grammar"),
    // Reading comes before all of these.
    ("A]\n3.5", "2 1 Number"),
    ("∇F\n'A", "2 1 OpenText"),
    ("∇F X Y Z\n@", "2 1 Character"),
    // Two refusals of the form: in both orders on two lines, and on one.
    ("∇F X Y Z\n∇\n∇G G\n∇", "1 8 Header"),
    ("∇G G\n∇\n∇F X Y Z\n∇", "1 4 DoubleName"),
    ("∇F F\n∇G\n∇", "1 4 DoubleName"),
    ("∇F X\n∇G\nX:1\n∇", "2 2 Header"),
    ("∇F X\nX:1\n∇G\n∇", "2 1 DoubleName"),
    ("∇F F 3\n∇", "1 6 Header"),
    ("∇\n∇F", "1 2 Header"),
    ("∇F\n∇G", "1 1 OpenDefinition"),
    ("∇3", "1 1 OpenDefinition"),
    ("∇F F\n∇\n∇G", "1 4 DoubleName"),
    ("∇F\nL:1\nL:2", "1 1 OpenDefinition"),
    ("∇F F", "1 1 OpenDefinition"),
    ("∇F\n∇\n∇F F\n∇", "3 2 DoubleName"),
    // A refusal of the form before one of a use, wherever it stands.
    ("F←1\n∇F\n∇\n∇", "4 2 Header"),
    ("F←1\n∇F F\n∇", "2 4 DoubleName"),
    ("F←1\n∇F", "2 1 OpenDefinition"),
    ("∇F\n∇\n∇F F←1\n∇", "3 5 Header"),
    ("∇F\n∇\n∇F F\nF←1\n∇", "3 2 DoubleName"),
    ("A]\n∇", "2 2 Header"),
    ("A]\n∇F F\n∇", "2 4 DoubleName"),
    ("A]\n∇F", "2 1 OpenDefinition"),
    ("∇F\n)VARS\nA]", "1 1 OpenDefinition"),
    ("∇\nA]", "1 2 Header"),
    // Two refusals of a use: in both orders on two lines, and on one.
    ("F←1\nA]\n∇F\n∇", "1 1 NameClass"),
    ("A]\nF←1\n∇F\n∇", "1 2 Grammar"),
    ("F←]\n∇F\n∇", "1 1 NameClass"),
    ("]F←1\n∇F\n∇", "1 1 Grammar"),
    ("F←1\n∇Z←X F Y\n∇", "1 1 NameClass"),
    ("∇G\nF:]\n∇\n∇F\n∇", "2 1 NameClass"),
    ("∇G\n]\nF:1\n∇\n∇F\n∇", "2 1 Grammar"),
    ("∇G F\n]\n∇\n∇F\n∇", "1 4 NameClass"),
    // A label heads no definition, so a line that begins with a function's name is none but a statement.
    ("∇F\nD 1\n∇\n∇Z←X D Y\n∇", "2 1 Grammar"),
    ("∇F\nD\n∇\n∇Z←X D Y\n∇", "2 1 Grammar"),
    ("∇F\nD D ←\n∇\n∇Z←X D Y\n∇", "2 1 Grammar"),
    ("∇F\n1 D\n∇\n∇Z←X D Y\n∇", "2 4 Grammar"),
    ("∇F\nD:1\n∇\n∇Z←X D Y\n∇", "2 1 NameClass"),
    ("∇F\nM:1\n∇\n∇Z←M Y\n∇", "2 1 NameClass"),
    ("∇F\nM\n∇\n∇Z←M Y\n∇", "2 2 Grammar"),
    ("∇F\nL:D 1\n∇\n∇Z←X D Y\n∇", "2 3 Grammar"),
    ("∇F\nL:D:1\n∇", "2 4 Grammar"),
    ("∇F\n1:L\n∇", "2 2 Grammar"),
    // What a statement is stands on the headings of the whole script.
    ("∇F\nX F Y\n∇", "2 3 Grammar"),
    ("∇Z←X F Y\nX F Y\n∇", "accepted"),
    ("∇F\nG\n∇\n∇G X\n∇", "2 2 Grammar"),
    ("∇F\nG:2\n∇\nG←1", "accepted"),
    ("∇F\nX←1\n∇\nX", "accepted"),
    ("∇F X\n∇\nX F 1", "3 3 Grammar"),
    ("∇F;L\nL:1\n∇", "2 1 DoubleName"),
    ("∇Z←F;Z\n∇", "1 6 DoubleName"),
    ("∇F\r\nL:1\r\n∇\r\nF\r\n", "accepted"),
    // Bytes, tokens and statements.
    ("A←(1+2", "1 7 Grammar"),
    ("3.5", "1 1 Number"),
    ("1++", "1 4 Grammar"),
    ("⌽[1 2]3", "1 3 Grammar"),
    ("'AB", "1 1 OpenText"),
    ("2@3", "1 2 Character"),
];

/// Scripts that begin with a text, go on with many parentheses and end with a text, with their first refusals.
#[rattlefmt::skip]
const PARENTHESES: [(&str, usize, &str, &str); 12] = [
    ("", 64, "1", "1 66 Grammar"),
    ("", 65, "1", "1 65 Deep"),
    ("A]\n", 65, "", "1 2 Grammar"),
    ("A←", 65, "\nA]", "1 67 Deep"),
    ("A]", 65, "", "1 2 Grammar"),
    ("F←", 65, "\n∇F\n∇", "1 1 NameClass"),
    ("", 65, "F←1\n∇F\n∇", "1 65 Deep"),
    ("F←1\n", 65, "\n∇F\n∇", "1 1 NameClass"),
    ("∇G\nL:", 65, "\nF←1\n∇\n∇F\n∇", "2 67 Deep"),
    ("∇G\n", 65, "\n∇\n∇", "4 2 Header"),
    ("", 65, "\n∇F F\n∇", "2 4 DoubleName"),
    ("", 65, "\n∇F", "2 1 OpenDefinition"),
];

/// A script that begins with text, goes on with many parentheses, and ends with text.
fn with_parentheses(alloc: Global, begin: &str, count: usize, end: &str) -> Result<String, Fail> {
    let mut script = String::from_str(alloc, begin)?;
    for _ in 0..count {
        script.push_str("(")?;
    }
    script.push_str(end)?;
    Ok(script)
}

// Each script of the table is refused at its first fault, or accepted.
#[test]
fn the_first_refusal_of_each_script(rt: HostRuntime) -> Result<(), Fail> {
    let alloc = rt.alloc();
    for (script, wanted) in SCRIPTS.iter() {
        tells(alloc, script.as_bytes(), wanted)?;
    }
    tells(alloc, &[0x32, 0x2B, 0xFF], "1 3 Utf8")?;
    for (begin, count, end, wanted) in PARENTHESES.iter() {
        let script = with_parentheses(alloc, begin, *count, end)?;
        tells(alloc, script.as_bytes(), wanted)?;
    }
    let mut long = vec![in alloc; b' '; 1 << 20]?;
    tells(alloc, long.as_slice(), "1 1001 LineLong")?;
    long.push(b'@')?;
    tells(alloc, long.as_slice(), "0 0 TooLong")
}

/// The items of a script that is accepted.
fn shown_items(alloc: Global, source: &str) -> Result<String, Fail> {
    match script_of_bytes(alloc, source.as_bytes()) {
        Ok(script) => show_items(alloc, &script),
        Err(_) => Ok(String::from_str(alloc, "refused")?),
    }
}

// A script with one of each kind of item has these items.
#[test]
fn the_items_of_a_script(rt: HostRuntime) -> Result<(), Fail> {
    let source = "1\n\n)VARS\n∇Z←F X;L\nZ←X\n\nM:→M\n∇\n∇G\n∇\nF 2\n";
    let items = shown_items(rt.alloc(), source)?;
    assert!(rt; items.as_str() == "11 lines: 1; 3 command; 4-8 F 5 6 7:M; 9-10 G; 11;");
    Ok(())
}
