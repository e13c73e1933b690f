// The first word of a line, which decides what must follow.
ghost use Rattle.lines.specs.Words.{Splits};

// Stands between two functions: one match of the words' bytes and of what each order needs would be longer than the forty
// lines that a function may have by a rule of the project.
#[derive(Clone, Copy)]
pub enum Word {
    Note,
    Head,
    Use,
    Corner,
    Close,
    Move,
    Ban,
    Lift,
    Fill,
    Standing,
}

// The word that the bytes begin with, and what follows it.
pub fn split_word(bytes: &[u8]) -> Option<(Word, &[u8])>
    ensures { Splits bytes.now result }
{
    match bytes {
        [b'n', b'o', b't', b'e', rest @ ..] => Some((Word::Note, rest)),
        [b'h', b'e', b'a', b'd', rest @ ..] => Some((Word::Head, rest)),
        [b'u', b's', b'e', rest @ ..] => Some((Word::Use, rest)),
        [b'c', b'o', b'r', b'n', b'e', b'r', rest @ ..] => Some((Word::Corner, rest)),
        [b'c', b'l', b'o', b's', b'e', rest @ ..] => Some((Word::Close, rest)),
        [b'm', b'o', b'v', b'e', rest @ ..] => Some((Word::Move, rest)),
        [b'b', b'a', b'n', rest @ ..] => Some((Word::Ban, rest)),
        [b'l', b'i', b'f', b't', rest @ ..] => Some((Word::Lift, rest)),
        [b'f', b'i', b'l', b'l', rest @ ..] => Some((Word::Fill, rest)),
        [b's', b't', b'a', b'n', b'd', b'i', b'n', b'g', rest @ ..] => {
            Some((Word::Standing, rest))
        }
        _ => None,
    }
}
