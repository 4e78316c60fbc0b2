// Hex digits as numbers and as bytes.

// What a digit stands for. `char::to_digit` takes capitals too, which stand in no case.
fn digit(byte: u8) -> Option<u8> {
    match byte {
        b'0'..=b'9' => Some(byte - b'0'),
        b'a'..=b'f' => Some(byte - b'a' + 10),
        _ => None,
    }
}

// The number whose digits are all of a text, sixteen at most.
pub fn number(digits: &[u8]) -> Option<u64> {
    let mut value = 0;
    for byte in digits {
        value = value << 4 | u64::from(digit(*byte)?);
    }
    Some(value)
}

// Puts the bytes whose digits are all of a text at the front of a room, and answers them; none where the text is no
// such text or they do not fit.
pub fn bytes<'a>(text: &[u8], room: &'a mut [u8]) -> Option<&'a [u8]> {
    let (pairs, []) = text.as_chunks::<2>() else {
        return None;
    };
    let out = room.get_mut(..pairs.len())?;
    for (byte, [high, low]) in out.iter_mut().zip(pairs) {
        *byte = digit(*high)? << 4 | digit(*low)?;
    }
    Some(out)
}
