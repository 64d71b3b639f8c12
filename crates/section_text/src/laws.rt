//! Laws of the definitions.
ghost use Rattle.section_text.specs.Laws.{NumbersHaveOneSpelling, NumbersAreShort, EachNumberHasASpelling, NoByteIsLost, IsReadFromItsOwnLines};

use crate::reader::Section;

/// States that each number has one spelling: without a leading zero, and with at most nine digits.
#[tactic(auto, using(crate::proofs::Numbers::number_spelled, crate::proofs::Numbers::number_written))]
pub fn one_spelling_of_a_number()
    ensures one_spelling { NumbersHaveOneSpelling }
    ensures short { NumbersAreShort }
    ensures each_number_spelled { EachNumberHasASpelling }
{}

/// States that the lines of a text and the bytes after its last line feed are the whole text.
#[tactic(auto, using(crate::proofs::Lines::whole_text))]
pub fn lines_lose_no_byte()
    ensures { NoByteIsLost }
{}

/// States that reading a section depends on its own lines alone, and not on their place in the stream.
#[tactic(auto, using(crate::proofs::Again::section_alone))]
pub fn reading_depends_on_own_lines<S: Section>(section: &S)
    ensures { IsReadFromItsOwnLines (S.grammar section.now) }
{
    let _section = section;
}
