//! Lists the modules of a bundle's certificate.
ghost use Rattle.std.specs.Prelude.{◌≡◌, ◌++◌, [], ◌∷◌, map, OnOk, IfOk};
ghost use Rattle.section_text.specs.Spelling.{space_and_word};
ghost use Rattle.std.specs.Fmt.{decimal};
ghost use Rattle.std.specs.List.{flat_map};
ghost use Rattle.certificate_lines.specs.Entries.{line_counts_of, modules_of};
ghost use Rattle.answers.specs.BundleReading.{bundle_of_certificate};
ghost use Rattle.answers.specs.ModulesText.{SaysModules, words_of_counts, module_line, module_lines};

use crate::outcome::{Answered, Outcome};
use certificate::{Cert, Counts};
use pattern::print_box;
use section_text::print_word;
use std::alloc::{AllocError, Global};

// A space and a number.
fn print_count(alloc: Global, out: &mut Vec<u8>, count: usize) -> Result<(), AllocError>
    ensures { OnOk result (out.new.items ≡ out.old.items ++ space_and_word (decimal count)) }
{
    let digits = count.to_string(alloc)?;
    print_word(out, digits.as_bytes())?;
    Ok(())
}

// How many lines of a kind there are.
fn print_kind_count(
    alloc: Global,
    out: &mut Vec<u8>,
    kind: &[u8],
    count: usize,
) -> Result<(), AllocError>
    ensures { OnOk result (out.new.items
        ≡ out.old.items ++ flat_map space_and_word (kind.now ∷ decimal count ∷ [])) }
{
    print_word(out, kind)?;
    print_count(alloc, out, count)?;
    Ok(())
}

// How many lines of each kind there are.
fn print_counts(alloc: Global, out: &mut Vec<u8>, counts: Counts) -> Result<(), AllocError>
    ensures { OnOk result (out.new.items
        ≡ out.old.items ++ flat_map space_and_word (words_of_counts counts)) }
{
    print_kind_count(alloc, out, b"cuts", counts.cuts)?;
    print_kind_count(alloc, out, b"gates", counts.gates)?;
    print_kind_count(alloc, out, b"edges", counts.edges)?;
    print_kind_count(alloc, out, b"halos", counts.halos)?;
    print_kind_count(alloc, out, b"stops", counts.stops)?;
    Ok(())
}

// The line of the module of this number.
#[tactic(auto, unfolding(crate::specs::ModulesText::module_line))]
fn print_module(
    alloc: Global,
    out: &mut Vec<u8>,
    number: usize,
    counts: Counts,
) -> Result<(), AllocError>
    ensures { OnOk result (out.new.items ≡ out.old.items ++ module_line number counts) }
{
    out.extend_from_slice(b"module")?;
    print_count(alloc, out, number)?;
    print_box(out, counts.area)?;
    print_counts(alloc, out, counts)?;
    out.push(b'\n')?;
    Ok(())
}

// The lines of the certificate's modules.
fn print_modules(alloc: Global, cert: &Cert) -> Result<Vec<u8>, AllocError>
    ensures { IfOk result (λ out. out.items
        ≡ module_lines 0 (map line_counts_of (modules_of cert.now.entries))) }
{
    let mut out = Vec::new(alloc);
    for number in 0..cert.modules() {
        print_module(alloc, &mut out, number, cert.counts(number))?;
    }
    Ok(out)
}

/// Lists the modules of a certificate.
pub(crate) fn list_modules(alloc: Global, cert: &Cert<'_>) -> Result<Answered, AllocError>
    ensures says { IfOk result (λ answered. SaysModules (bundle_of_certificate cert.now)
        answered.output.items answered.outcome) }
{
    let output = print_modules(alloc, cert)?;
    Ok(Answered {
        outcome: Outcome::Yes,
        output,
    })
}
