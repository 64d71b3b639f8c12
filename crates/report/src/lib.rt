//! The bytes of reports, and of the line for a text that is refused.
//!
//! A report says which format it has, the digest of the certificate, and how many modules the certificate has. Then
//! come the verdict, and after a no a line for each fault that the verdict names. The lines on delays and meetings come
//! last, after a yes too. `specs/ReportText.antt` has every line, and `docs/FORMATS.md` explains them to users.
#![tactic(auto)]

mod printing;

pub use printing::{refusal_text, report_text, report_with_digest};
