//! What holds of the texts of moments.
ghost use Rattle.seg_common.specs.DateLaws.{PrintedMomentsAreRead, ReadTextsBeginWithADigit};

/// Each moment is read from what is printed of it.
pub fn printed_moments_are_read()
    ensures { PrintedMomentsAreRead }
{}

/// A text that is read begins with a digit, so `can_be_rfc3339_date_time` holds of it.
pub fn read_texts_begin_with_a_digit()
    ensures { ReadTextsBeginWithADigit }
{}
