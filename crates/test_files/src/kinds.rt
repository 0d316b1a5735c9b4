//! The words of a line.

/// Which files a text is read as.
#[derive(Clone, Copy)]
pub enum Kind {
    Part,
    Base,
    Log,
}

/// What is done with the texts.
#[derive(Clone, Copy)]
pub enum Verb {
    Read,
    List,
    Write,
    Cuts,
    Changes,
    Longer,
    Join,
    Stream,
    Lay,
}

/// The kind of this name.
pub fn kind_of(word: &[u8]) -> Option<Kind> {
    match word {
        b"part" => Some(Kind::Part),
        b"base" => Some(Kind::Base),
        b"log" => Some(Kind::Log),
        _ => None,
    }
}

/// The verb of this name.
pub fn verb_of(word: &[u8]) -> Option<Verb> {
    match word {
        b"read" => Some(Verb::Read),
        b"list" => Some(Verb::List),
        b"write" => Some(Verb::Write),
        b"cuts" => Some(Verb::Cuts),
        b"changes" => Some(Verb::Changes),
        b"longer" => Some(Verb::Longer),
        b"join" => Some(Verb::Join),
        b"stream" => Some(Verb::Stream),
        b"lay" => Some(Verb::Lay),
        _ => None,
    }
}
