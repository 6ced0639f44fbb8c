//! Laws of the header words, each the contract of a function that does nothing.

ghost use Rattle.vs_headers.specs.Laws.{DecodesWhatWasEncoded, EncodesWhatWasDecoded, OneHeadAWord};

/// A head is read back from its word.
pub fn decodes_what_was_encoded()
    ensures { DecodesWhatWasEncoded }
{}

/// A word that decodes is the word of the head that it decodes to.
pub fn encodes_what_was_decoded()
    ensures { EncodesWhatWasDecoded }
{}

/// Two heads at one address and key that have one word are equal.
pub fn one_head_a_word()
    ensures { OneHeadAWord }
{}
