// What is wrong with a frame's texts, by the table of refusals: one is no good text, or a limit is passed.
#![tactic(auto)]

ghost use Rattle.std.specs.Prelude.{◌≡◌, ◌||◌};
ghost use Rattle.octets.specs.Told.{told_if};
ghost use Rattle.lines.specs.Bytes.{bytes};
ghost use Rattle.refusals.specs.Checked.{long, bad_name, bad_string, bad_program};
ghost use Rattle.flaws.specs.Flaws.{flaw_told, limit_told};

use ast::Name;
use lines::Hex;

// A text of a frame that is no good one.
#[derive(Clone, Copy)]
pub struct NotText;

// A limit that a frame passes.
#[derive(Clone, Copy)]
pub struct OverLimit;

// A map's or a symbol's name is UTF-8.
pub fn name_flaw(s: Hex) -> Result<(), NotText>
    ensures { flaw_told result ≡ told_if 5 (bad_name (bytes s.entry)) }
{
    if utf8::is_text(s) {
        return Ok(());
    }
    Err(NotText)
}

// A licence or a section name is UTF-8 with no zero byte.
pub fn string_flaw(s: Hex) -> Result<(), NotText>
    ensures { flaw_told result ≡ told_if 5 (bad_string (bytes s.entry)) }
{
    if utf8::has_zero(s) {
        return Err(NotText);
    }
    name_flaw(s)
}

// A program's two names: each is judged by itself, and the section's is not empty.
pub fn program_flaw(section: Hex, symbol: Hex) -> Result<(), NotText>
    ensures { flaw_told result ≡ told_if 5 (bad_program (bytes section.entry) (bytes symbol.entry)) }
{
    if section.len() == 0 {
        return Err(NotText);
    }
    let first = string_flaw(section);
    let Ok(()) = first else {
        return Err(NotText);
    };
    name_flaw(symbol)
}

// A name's length, and whether the table that it would go into is full.
pub fn name_limit(s: Hex, full: bool) -> Result<(), OverLimit>
    ensures { limit_told result ≡ told_if 6 (full || long (bytes s.entry)) }
{
    if full {
        return Err(OverLimit);
    }
    if Name::LONGEST < s.len() {
        return Err(OverLimit);
    }
    Ok(())
}

// The same for a program's two names.
pub fn program_limit(section: Hex, symbol: Hex, full: bool) -> Result<(), OverLimit>
    ensures { limit_told result ≡ told_if 6 (full || long (bytes section.entry) || long (bytes symbol.entry)) }
{
    let first = name_limit(section, full);
    let Ok(()) = first else {
        return Err(OverLimit);
    };
    name_limit(symbol, false)
}
