// Laws of text in both codes, each the contract of a call that does nothing.
ghost use Rattle.text_block.specs.Characters.{GoesBothWays};
ghost use Rattle.text_block.specs.Lines.{ShowsEncoded};

/// What is encoded is shown again, in both codes: a text as its characters, and then blanks up to
/// 80, so that without the blanks at its end it is the text without the blanks at its end. Each
/// byte with a character is that character's byte, and no other is. Takes no memory.
pub fn shows_encoded()
    ensures text { ShowsEncoded }
    ensures characters { GoesBothWays }
{}
