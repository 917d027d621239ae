//! Which words a character belongs to.
ghost use Rattle.std.specs.Prelude.{◌≡◌};
ghost use Rattle.apl_model.specs.Characters.{is_blank, is_digit, is_letter, is_name_part, begins_number, is_number_part, is_glyph, read_as};

/// The glyphs that are tokens of one character.
const GLYPHS: [char; 49] = [
    '+', '-', '*', '|', '~', '!', '<', '=', '>', ',', '/', '\\', '.', ':', ';', '(', ')', '[', ']',
    '×', '÷', '⌈', '⌊', '∧', '∨', '⍲', '⍱', '≤', '≥', '≠', '⍳', '⍴', '⌽', '⊖', '⍉', '↑', '↓', '⌿',
    '⍀', '∈', '⊤', '⊥', '⍋', '⍒', '∘', '←', '→', '⎕', '∇',
];

/// Whether the character is a blank or a tab.
pub(crate) fn blank(c: char) -> bool
    ensures { result ≡ is_blank c }
{
    c == ' ' || c == '\t'
}

/// Whether the character is a decimal digit.
pub(crate) fn digit(c: char) -> bool
    ensures { result ≡ is_digit c }
{
    c.is_ascii_digit()
}

/// Whether a name can begin with the character.
pub(crate) fn letter(c: char) -> bool
    ensures { result ≡ is_letter c }
{
    c.is_ascii_alphabetic() || ['_', '∆', '⍙'].contains(&c)
}

/// Whether a name goes on over the character.
pub(crate) fn name_part(c: char) -> bool
    ensures { result ≡ is_name_part c }
{
    letter(c) || digit(c)
}

/// Whether a numeric word begins with the character.
pub(crate) fn number_start(c: char) -> bool
    ensures { result ≡ begins_number c }
{
    digit(c) || c == '¯'
}

/// Whether a numeric word goes on over the character.
pub(crate) fn number_part(c: char) -> bool
    ensures { result ≡ is_number_part c }
{
    name_part(c) || ['¯', '.'].contains(&c)
}

/// Whether the character is a glyph that is a token.
pub(crate) fn glyph(c: char) -> bool
    ensures { result ≡ is_glyph c }
{
    GLYPHS.contains(&c)
}

/// The glyph that the character is read as: five have a second spelling.
pub(crate) fn first_spelling(c: char) -> char
    ensures { result ≡ read_as c }
{
    match c {
        '∼' => '~',
        '∣' => '|',
        '⋆' => '*',
        '∊' => '∈',
        '^' => '∧',
        _ => c,
    }
}
