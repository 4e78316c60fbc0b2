// Words and decimal numbers one after another: a text of at most 160 bytes, made by value, then put into a lent output.
#![tactic(auto)]

ghost use Rattle.std.specs.Prelude.{◌≡◌, ◌≤◌, [], ◌++◌, length};
ghost use Rattle.text.specs.Text.{text_of, clipped, decimal, put_over};

// How many bytes a text may have.
const ROOM: usize = 160;

// The text is the first `len` bytes, all of them where `len` is more.
#[derive(Clone, Copy)]
pub struct Text {
    bytes: [u8; 160],
    len: usize,
}

impl Text {
    // The text with nothing in it.
    pub fn empty() -> Text
        ensures { text_of result ≡ [] }
    {
        Text {
            bytes: [0; ROOM],
            len: 0,
        }
    }

    // The text and these bytes after it, as far as there is room.
    pub fn words(self, words: &[u8]) -> Text
        ensures { text_of result ≡ clipped (text_of self ++ words.now) }
    {
        let size = self.size();
        let more = words.len().min(ROOM - size);
        let len = size + more;
        let mut bytes = self.bytes;
        bytes[size..len].copy_from_slice(&words[..more]);
        Text { bytes, len }
    }

    // The text, these bytes and a number's decimal digits after it, as far as there is room.
    pub fn figure(self, words: &[u8], n: u64) -> Text
        ensures { text_of result ≡ clipped (text_of self ++ (words.now ++ decimal n)) }
    {
        let mut digits = [0; 20];
        let k = io::decimal(n, &mut digits);
        self.words(words).words(&digits[..k])
    }

    // Writes the text at the front of an output that has room for it, and answers the room that it takes.
    #[tactic(auto, using(crate::proofs::Laws::as_long), unfolding(crate::specs::Text::put_over))]
    pub fn put(self, out: &mut [u8]) -> usize
        ensures value { result ≡ length (text_of self) }
        ensures out_after { out.new ≡ put_over (text_of self) out.old }
    {
        let n = self.size();
        if out.len() < n {
            return n;
        }
        out[..n].copy_from_slice(&self.bytes[..n]);
        n
    }

    // How many bytes the text has.
    fn size(self) -> usize
        ensures value { result ≡ length (text_of self) }
        ensures in_room { result ≤ 160 }
    {
        self.len.min(ROOM)
    }
}
