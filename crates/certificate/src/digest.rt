//! The digest of a certificate.
ghost use Rattle.std.specs.Prelude.{ℕ, List, ◌≡◌, ◌++◌, IfOk, OnOk};
ghost use Rattle.std.specs.List.{All, flat_map};
ghost use Rattle.sha2.specs.Hashers.{Holds256};
ghost use Rattle.sha2.specs.Sha256.{sha256};
ghost use Rattle.circuit.specs.Bridge.{circuit_of};
ghost use Rattle.certificate.specs.Text.{certificate_text, entry_text};
ghost use Rattle.certificate_lines.specs.StoredModules.{HasCircuitWires, lines_of_modules};

use crate::cert::Cert;
use crate::printing::{print_header, print_module_lines};
use certificate_lines::StoredModule;
use circuit::Circuit;
use sha2::{Digest, Sha256};
use std::alloc::{AllocError, Global};

// Hashes the text of modules. The text of each module is printed in place of the one before it.
fn hash_modules(
    hasher: &mut Sha256,
    text: &mut Vec<u8>,
    circuit: &Circuit,
    modules: &[StoredModule],
) -> Result<(), AllocError>
    requires { All (HasCircuitWires (circuit_of circuit.now)) modules.now }
    ensures { OnOk result ((m : List ℕ) → Holds256 hasher.old m → Holds256 hasher.new
        (m ++ flat_map entry_text (lines_of_modules (circuit_of circuit.now) modules.now))) }
{
    for module in modules {
        text.truncate(0);
        print_module_lines(text, circuit, module, &module.halos)?;
        hasher.update(text.as_slice());
    }
    Ok(())
}

impl<'a> Cert<'a> {
    /// Returns the SHA-256 digest of the certificate's text. It takes memory for the text of one module at a time.
    ///
    /// The text is the bytes of its section, from its header line to its `end` line with the line feed. The modules
    /// are printed and hashed one by one. The SHA-256 of the bytes that were read is the same.
    #[tactic(auto, unfolding(crate::specs::Text::certificate_text))]
    pub fn digest(&self, alloc: Global) -> Result<[u8; 32], AllocError>
        ensures { IfOk result (λ digest. digest ≡ sha256 (certificate_text self.now)) }
    {
        let mut hasher = Sha256::new();
        let mut text = Vec::new(alloc);
        print_header(&mut text, self.version)?;
        hasher.update(text.as_slice());
        hash_modules(&mut hasher, &mut text, self.circuit, &self.modules)?;
        hasher.update(b"end\n");
        Ok(hasher.finalize())
    }
}
