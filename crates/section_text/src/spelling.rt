//! How words are written.
ghost use Rattle.std.specs.Prelude.{◌≡◌, ◌++◌, ℕ, List, OnOk, OnErr};
ghost use Rattle.std.specs.Fmt.{decimal};
ghost use Rattle.section_text.specs.Spelling.{space_and_word};

use itoa::Buffer;
use std::alloc::AllocError;

/// Writes a space and a word at the end of `out`.
///
/// # Errors
///
/// Out of memory. A part of the bytes may then be written.
pub fn print_word(out: &mut Vec<u8>, word: &[u8]) -> Result<(), AllocError>
    ensures ok { OnOk result (out.new.items ≡ out.old.items ++ space_and_word word.now) }
    ensures err { OnErr result ((part : List ℕ) × (out.new.items ≡ out.old.items ++ part)) }
{
    out.push(b' ')?;
    out.extend_from_slice(word)?;
    Ok(())
}

/// Writes a space and a number, in decimal, at the end of `out`.
///
/// # Errors
///
/// Out of memory. A part of the bytes may then be written.
pub fn print_number(out: &mut Vec<u8>, number: u32) -> Result<(), AllocError>
    ensures ok { OnOk result (out.new.items ≡ out.old.items ++ space_and_word (decimal number)) }
    ensures err { OnErr result ((part : List ℕ) × (out.new.items ≡ out.old.items ++ part)) }
{
    let mut digits = Buffer::new();
    print_word(out, digits.format(number).as_bytes())
}
