//! Laws of the text. Each function does nothing: its contract is the law.
ghost use Rattle.arr_cert.specs.Laws.{TextsDiffer};
ghost use Rattle.arr_cert.specs.Back.{ReadAlways, ReadOnce, TextsReadBack};

/// No two certificates that may be written have one text (docs/CERTIFICATES.md, "The text").
pub fn texts_differ()
    ensures { TextsDiffer }
{}

/// The text of a certificate that may be written is read as its records, a line for each, and then its end
/// (docs/CERTIFICATES.md, "Reading").
pub fn texts_read_back()
    ensures { TextsReadBack }
{}

/// Each proof is read as something, and in one way (docs/CERTIFICATES.md, "Reading").
pub fn proofs_are_read()
    ensures always { ReadAlways }
    ensures once { ReadOnce }
{}
