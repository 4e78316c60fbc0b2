// What a case of a decode asks of the port. Its input: a byte, the channels wanted; a byte, how many bytes the lent
// output is short of the needed; two, the message's length, big-endian; the message; and the output's bytes as the Rust
// left them, which were all 0xa5 before.
use crate::groups::Answer;
use header::Header;

// The length of the output that a message needs: 64 where its header is refused, and more than any case lends where it
// has 4,096 pixels.
fn needed(message: &[u8], wanted: u8) -> usize {
    match Header::decode(message) {
        Ok(header) if header.n_pixels() < 4096 => header.n_pixels() * usize::from(wanted),
        Ok(_) => 4096,
        Err(_) => 64,
    }
}

// A decode into an output, if it leaves there what the Rust left, and of the message as much as it says.
fn decoded(message: &[u8], wanted: u8, out: &mut [u8], left: &[u8]) -> Option<Answer> {
    let decoded = decode::decode(message, u64::from(wanted), out);
    let rest = decode::rest(message, decoded).len();
    let used = decoded.map_or(message.len(), |done| done.used);
    if *out != *left || message.len().checked_sub(used) != Some(rest) {
        return None;
    }
    Some(decoded.map(|done| [done.size as u64, done.used as u64, 0, 0]))
}

// The port's answer to a case.
pub fn asked(input: &[u8]) -> Option<Answer> {
    let ([wanted, short, high, low], bytes) = input.split_first_chunk::<4>()?;
    let length = u16::from_be_bytes([*high, *low]);
    let (message, left) = bytes.split_at_checked(usize::from(length))?;
    let lent = needed(message, *wanted).checked_sub(usize::from(*short))?;
    let mut room = [0xa5u8; 2048];
    decoded(message, *wanted, room.get_mut(..lent)?, left)
}
