// The calls that a case can name, by the numbers of the stream.
#[derive(Clone, Copy)]
pub enum Kind {
    Judge,
    Body,
    Counts,
    Clause,
    HeaderText,
    ClauseText,
    ManyLines,
    Start,
    Line,
    FoldLines,
    Output,
    End,
    WayBack,
    Walk,
}

// The call that a number names, if it is one of these and not a whole program.
pub fn kind_of(number: usize) -> Option<Kind> {
    match number {
        1 => Some(Kind::Judge),
        2 => Some(Kind::Body),
        3 => Some(Kind::Counts),
        4 => Some(Kind::Clause),
        5 => Some(Kind::HeaderText),
        6 => Some(Kind::ClauseText),
        7 => Some(Kind::ManyLines),
        8 => Some(Kind::Start),
        9 => Some(Kind::Line),
        10 => Some(Kind::FoldLines),
        11 => Some(Kind::Output),
        12 => Some(Kind::End),
        13 => Some(Kind::WayBack),
        14 => Some(Kind::Walk),
        _ => None,
    }
}
