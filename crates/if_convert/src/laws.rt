//! Laws of converted nests.
ghost use Rattle.if_convert.specs.Laws.{ConvertedIsPlain};

/// No IF, label or jump is left.
pub fn converted_is_plain()
    ensures { ConvertedIsPlain }
{}
