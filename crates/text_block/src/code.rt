/// How the characters of a block are stored: in EBCDIC (code page 037), or in ASCII.
#[derive(Clone, Copy, Debug, PartialEq, Eq)]
pub enum Code {
    Ebcdic,
    Ascii,
}
