//! What a line of a case stands for.

/// What a line of a case stands for.
#[derive(Drop)]
pub enum Piece<'a> {
    /// A line of the script, so many times.
    Lines { count: u32, line: &'a str },
    /// Bytes, two hexadecimal digits each.
    Bytes(&'a str),
    /// The script that is made of so many blocks from a number.
    Made { blocks: u32, number: u64 },
}

impl<'a> Piece<'a> {
    /// What this line stands for. One that is none of the others is a line of the script.
    pub fn of(line: &'a str) -> Piece<'a> {
        special(line).unwrap_or(Piece::Lines { count: 1, line })
    }
}

fn special<'a>(line: &'a str) -> Option<Piece<'a>> {
    let (word, rest) = line.strip_prefix("=")?.split_once(" ")?;
    match word {
        "repeat" => repeated(rest),
        "bytes" => Some(Piece::Bytes(rest)),
        "load" => made(rest),
        _ => None,
    }
}

fn repeated<'a>(rest: &'a str) -> Option<Piece<'a>> {
    let (count, line) = rest.split_once(" ")?;
    Some(Piece::Lines {
        count: count.parse().ok()?,
        line,
    })
}

fn made<'a>(rest: &'a str) -> Option<Piece<'a>> {
    let (blocks, number) = rest.split_once(" ")?;
    Some(Piece::Made {
        blocks: blocks.parse().ok()?,
        number: number.parse().ok()?,
    })
}
