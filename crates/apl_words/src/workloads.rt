//! The script of the workload.

ghost use Rattle.std.specs.Prelude.{◌≡◌, ◌++◌, ◌<◌, ◌≤◌, ◌^◌, codes, decimal, encode_utf8_all, string_bytes, IfOk, OnOk};
ghost use Rattle.apl_words.specs.Workload.{line_by, next_seed, statement, workload_text};

use apl_base::NoMemory;
use itoa::Buffer;
use std::alloc::Global;

/// How many lines the seeds choose.
const LINES: u32 = 5000;

/// The script of a workload, by its number: 5,000 lines on vectors of 1,000 numbers between three that begin and five
/// that print.
pub fn workload(alloc: Global, k: u32) -> Result<Vec<u8>, NoMemory>
    ensures { IfOk result (λ text. text.items ≡ encode_utf8_all (workload_text k)) }
{
    let mut text = String::new(alloc);
    text.push_str("A←1000|⍳1000\nS←0\nB←0\n")?;
    let mut seed = u64::from(k);
    for _line in 0..LINES {
        seed = next_seed(seed);
        add_line(seed, &mut text)?;
    }
    text.push_str("S\n+/A\n⌈/A\n⍴A\n⍴B\n")?;
    Ok(text.into_bytes())
}

// The seed after a seed.
fn next_seed(seed: u64) -> u64
    requires { seed < 2 ^ 32 }
    ensures next { result ≡ next_seed seed }
    ensures below { result < 2 ^ 32 }
{
    (1_103_515_245 * seed + 12_345) % 2_147_483_648
}

// Appends the line that a seed chooses.
fn add_line(seed: u64, text: &mut String) -> Result<(), NoMemory>
    ensures { OnOk result (string_bytes text.new
        ≡ string_bytes text.old ++ encode_utf8_all (line_by seed)) }
{
    let chosen = seed / 65_536;
    add_statement(chosen % 8, chosen / 8 % 1000, text)?;
    text.push('\n')?;
    Ok(())
}

// Appends the statement of a number, with a number below 1000 in it.
fn add_statement(number: u64, p: u64, text: &mut String) -> Result<(), NoMemory>
    requires statement { number < 8 }
    requires part { p < 1000 }
    ensures { OnOk result (string_bytes text.new
        ≡ string_bytes text.old ++ encode_utf8_all (statement number p)) }
{
    match number {
        0 => add_around("A←1000|A+", p, "", text),
        1 => Ok(text.push_str("A←⌽A")?),
        2 => add_around("A←", p, "⌽A", text),
        3 => {
            add_around("A←(", p, "↓A),", text)?;
            add_around("", p, "↑A", text)
        }
        4 => {
            add_around("A[", p + 1, "]←", text)?;
            add_around("", p, "", text)
        }
        5 => add_around("B←", p, "↑3×⌽A", text),
        6 => Ok(text.push_str("A←1000|A+⌽A")?),
        _ => add_around("S←+/", p + 1, "↑A×2", text),
    }
}

// Appends a number between two texts.
fn add_around(before: &str, number: u64, after: &str, text: &mut String) -> Result<(), NoMemory>
    ensures { OnOk result (string_bytes text.new
        ≡ string_bytes text.old ++ before.now ++ decimal number ++ after.now) }
{
    let mut digits = Buffer::new();
    text.push_str(before)?;
    text.push_str(digits.format(number))?;
    text.push_str(after)?;
    Ok(())
}
