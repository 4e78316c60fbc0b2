// A refusal in words.
ghost use Rattle.std.specs.Prelude.{◌≡◌};
ghost use Rattle.text.specs.Text.{text_of, said};
ghost use Rattle.pixel.specs.Words.{sentence, end_parts, bad_parts, magic_parts};

use text::Text;

// What is said of a number and its figures.
pub fn of(number: u64, a: u64, b: u64, c: u64) -> Text
    ensures { text_of result ≡ said (sentence number a b c) }
{
    let text = Text::empty();
    match number {
        1 => end(a),
        2 => text.figure(b"invalid number of channels: ", a),
        3 => text
            .figure(b"invalid color space: ", a)
            .words(b" (expected 0 or 1)"),
        4 => magic(a),
        5 => text
            .figure(b"invalid image dimensions: ", a)
            .figure(b"x", b),
        6 => text
            .figure(b"invalid image length: ", a)
            .figure(b" bytes for ", b)
            .figure(b"x", c),
        7 => text
            .figure(b"output buffer size too small: ", a)
            .figure(b" (required: ", b)
            .words(b")"),
        8 => text.words(b"invalid padding (stream end marker mismatch)"),
        9 => bad(a),
        10 => text.words(b"invalid run (longer than the pixels left)"),
        11 => text.words(b"invalid length (bytes after the stream end marker)"),
        12 => text.figure(b"record of another message: ", a),
        19 => text
            .figure(b"invalid hour: ", a)
            .words(b" (expected 0 to 743)"),
        20 => text
            .figure(b"invalid number of cells: ", a)
            .figure(b" pixels for ", b)
            .words(b" cells"),
        21 => text
            .figure(b"total too large: cell ", a)
            .words(b" would pass 18446744073709551615"),
        _ => text.figure(b"unknown refusal: ", number),
    }
}

// The sentence of an end that comes early, in a record at an offset.
fn end(offset: u64) -> Text
    ensures { text_of result ≡ said (end_parts offset) }
{
    let text = Text::empty();
    if offset == 0 {
        return text.words(b"unexpected input buffer end while decoding");
    }
    text.figure(b"record is bad at byte ", offset)
        .words(b" (unexpected end)")
}

// The sentence of a bad state or, with an offset, of a bad record.
fn bad(offset: u64) -> Text
    ensures { text_of result ≡ said (bad_parts offset) }
{
    let text = Text::empty();
    if offset == 0 {
        return text.words(b"invalid decoder state");
    }
    text.figure(b"record is bad at byte ", offset)
}

// The sentence of a wrong magic: the four bytes that stood there, the first one first.
fn magic(found: u64) -> Text
    ensures { text_of result ≡ said (magic_parts found) }
{
    let [.., first, second, third, fourth] = found.to_be_bytes();
    Text::empty()
        .figure(
            b"invalid magic: expected 1903126886, got [",
            u64::from(first),
        )
        .figure(b", ", u64::from(second))
        .figure(b", ", u64::from(third))
        .figure(b", ", u64::from(fourth))
        .words(b"]")
}
